//! The command that holds a machine line by line.

pub const DRIVE: &str = "\
Holds a machine that runs a program, and answers the lines of standard input,
each before it reads the next.

usage: safetynet drive [OPTIONS] PROGRAM

options, before or after the file, each at most once, as --nodes 2 or --nodes=2:
  --nodes N        how many nodes, 1 to 16 [default: 4]
  --sets N         sets of each cache, 1 to 256 [default: 16]
  --ways N         lines of each set, 1 to 16 [default: 4]
  --log N          entries of each node's log, 4 to 4096 [default: 256]
  --watch ADDRESS  also show the word at ADDRESS wherever cores are shown: eight
                   hexadecimal digits, 80000000 to 803ffffc, a multiple of 4
  --states         of each event a line of JSON, with what it changed of the
                   state, as replay --states puts it; the start's whole state
                   comes before the first line is read, and the summary is the
                   last object

reads:
  PROGRAM         an ELF file or a text of words, at most 16 MiB (help formats)
  standard input  lines of a script (help events); \"foresee EVENT\"; \"show\",
                  \"node N\", \"core N\", \"block B\" or \"flights\"; \"due N P\"; and
                  \"mark\" or \"back K\"

writes:
  standard output  the bytes that the program puts out, once validated
  standard error   for an event what replay puts: its answer and the messages
                   that it sent, after a recovery each core; for \"foresee EVENT\"
                   the line that the event would get; for the next five the
                   state, a node, its core, a block's home or the messages in
                   flight, a JSON object in the words of replay --states; for
                   \"due N P\" the event that a run would pick in node N's turn
                   with the number P: {\"event\":\"step 0\"} or {\"event\":null}. These
                   change nothing. For \"mark\" {\"mark\":K}, the number of events
                   that are done; \"back K\" takes back all but the first K, and is
                   answered {\"back\":K}. For a line that is none of them \"badline\"
                   and its number, and for one that names what isn't there
                   \"outofrange\" and its number. At the end the summary

Answers go out before a line is waited for, so another program can hold the
machine at the end of two pipes. An empty line, and one that begins with #, has
no answer. Bytes that were put out aren't taken back: after \"back K\" they may be
put out again. The end of the input ends the drive; so does an event after
1,000,000 that are done, with the line \"toomany\" before the summary.

exit status: 0 done, 1 usage, 2 store, 3 program, 5 sink, 6 budget (1,000,000
             events), 7 memory, 14 input (help statuses)

examples:
  safetynet drive --nodes 2 examples/shared/count.hex \\
      < examples/shared/shared_word.script
  printf 'foresee step 0\\nstep 0\\n' \\
      | safetynet drive examples/shared/count.hex
";
