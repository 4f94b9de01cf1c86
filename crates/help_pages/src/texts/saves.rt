//! The commands that save a recovery point, and go on from one.

pub const SAVE: &str = "\
Applies the events of a script, and writes the machine's recovery point as a
text from which `resume` goes on. What is newer than the point isn't in it. To
save what `resume` has come to, join both scripts with a line `recover` between
them, and save the whole.

usage: safetynet save [OPTIONS] PROGRAM SCRIPT

options, before or after the files, each at most once, as --nodes 2 or --nodes=2:
  --nodes N  how many nodes, 1 to 16 [default: 4]
  --sets N   sets of each cache, 1 to 256 [default: 16]
  --ways N   lines of each set, 1 to 16 [default: 4]
  --log N    entries of each node's log, 4 to 4096 [default: 256]

reads:
  PROGRAM  an ELF file or a text of words, at most 16 MiB (help formats)
  SCRIPT   one event a line, at most 32 MiB and 1,000,000 events (help events)

writes:
  standard output  the bytes that the program puts out, once validated
  standard error   the save file, and nothing else:
    safetynet-save 1            the form of the file
    config NODES SETS WAYS LOG  the machine's sizes
    marks POINT NEXT APPLIED    the recovery point, the next message's number,
                                and how many events were applied
    dead S                      a dead switch
    owner B N                   the cache of node N owns block B at the point
    given N BB                  a byte that was given to node N
    rec N WORD F [BB]           an instruction that is committed, as in TRACE
    end                         the end

exit status: 0 done, 1 usage, 2 store, 3 program, 4 script, 5 sink, 7 memory
             (help statuses)

examples:
  safetynet save --nodes 1 examples/first/a.hex examples/save/first.script \\
      2>a.save
  safetynet resume examples/first/a.hex a.save examples/save/second.script
";

pub const RESUME: &str = "\
Applies the events of a script to a machine that goes on from a saved recovery
point: it is in the state that a recovery would have left. The saved trace and
what is committed later are one execution of the program.

usage: safetynet resume [OPTIONS] PROGRAM SAVE SCRIPT

options, before or after the files, at most once, as --watch A or --watch=A:
  --watch ADDRESS  also show the word at ADDRESS wherever cores are shown: eight
                   hexadecimal digits, 80000000 to 803ffffc, a multiple of 4

The number of nodes and the other sizes are the save file's, and the messages
that are sent have numbers from its NEXT on (help save).

reads:
  PROGRAM  an ELF file or a text of words, at most 16 MiB (help formats)
  SAVE     what `save` wrote (help save), at most 64 MiB, with at most 1,000,000
           lines `given` and as many lines `rec`
  SCRIPT   one event a line, at most 32 MiB and 1,000,000 events (help events)

writes:
  standard output  the bytes that the program puts out after the saved ones, once
                   validated
  standard error   each event with its answer and the messages that it sent, the
                   events counted from 1; after a recovery each core; at the end
                   a summary, as `replay` does. Its lines \"committed\" and
                   \"released\" count what was saved too

A save file is refused (12) for its first fault: a line of another form, in
another order, or lacking (badline); a number that no such machine has, or one
line too many (outofrange); two nodes that no living switches join (cutoff); an
owner for whom a set of its cache has no place (setfull); an instruction that
this program doesn't do after those before it (notlegal); bytes that a node read
and that aren't the first ones given to it (unread).

exit status: 0 done, 1 usage, 2 store, 3 program, 4 script, 5 sink, 7 memory,
             12 save (help statuses)

examples:
  safetynet resume examples/first/a.hex examples/save/first.save \\
      examples/save/second.script
";
