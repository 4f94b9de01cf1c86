//! The commands that apply a script's events.

pub const REPLAY: &str = "\
Applies the events of a script to a machine that runs a program, and reports
what each one did.

usage: safetynet replay [OPTIONS] PROGRAM SCRIPT

options, before or after the files, each at most once, as --nodes 2 or --nodes=2:
  --nodes N        how many nodes, 1 to 16 [default: 4]
  --sets N         sets of each cache, 1 to 256 [default: 16]
  --ways N         lines of each set, 1 to 16 [default: 4]
  --log N          entries of each node's log, 4 to 4096 [default: 256]
  --watch ADDRESS  also show the word at ADDRESS wherever cores are shown: eight
                   hexadecimal digits, 80000000 to 803ffffc, a multiple of 4
  --trace          report the committed trace in place of the events, one record
                   a line, and then the summary with \"# \" before each line
  --states         report the machine's states in place of the events: a JSON
                   object a line, the start, each event with what it touched,
                   and the summary
  --only A-B       with --states: only the events from place A to place B, from
                   1 to the number of events, and the state before them
  --statistics     report the events, and behind the summary what was counted of
                   the run: lines \"stat NAME VALUE\" (help formats)
  --accesses       report the committed trace in place of the events as a table:
                   CSV, an instruction a line with what it did in memory, and
                   then the summary with \"# \" before each line

Of --trace, --states, --statistics and --accesses at most one stands.

reads:
  PROGRAM  an ELF file or a text of words, at most 16 MiB (help formats)
  SCRIPT   one event a line, at most 32 MiB and 1,000,000 events (help events)

writes:
  standard output  the bytes that the program puts out, once validated
  standard error   each event with its answer and the messages that it sent;
                   after a recovery each core; at the end a summary. Its lines
                   \"probe 0 0\" to \"probe 0 9\" count the events of each kind

A message has its number from the report, so a script that delivers it can be
written line by line: replay it, read the number, add the next event.

exit status: 0 done, 1 usage, 2 store, 3 program, 4 script, 5 sink, 7 memory
             (help statuses)

examples:
  safetynet replay --nodes 2 --watch 80001000 \\
      examples/shared/count.hex examples/shared/shared_word.script
  safetynet replay --nodes=1 --trace examples/first/a.hex examples/first/a.script
  safetynet replay --nodes 2 --states --only 5-7 \\
      examples/shared/count.hex examples/shared/lost_transfer.script
";

pub const ROLL: &str = "\
Applies the events of a script, and then recovers the machine node by node: by
orders that go out to the nodes, may be lost, come twice or come late.

usage: safetynet roll [OPTIONS] PROGRAM SCRIPT CONTROL

options, before or after the files, each at most once, as --nodes 2 or --nodes=2:
  --nodes N        how many nodes, 1 to 16 [default: 4]
  --sets N         sets of each cache, 1 to 256 [default: 16]
  --ways N         lines of each set, 1 to 16 [default: 4]
  --log N          entries of each node's log, 4 to 4096 [default: 256]
  --watch ADDRESS  also show the word at ADDRESS in the summary: eight
                   hexadecimal digits, 80000000 to 803ffffc, a multiple of 4

reads:
  PROGRAM  an ELF file or a text of words, at most 16 MiB (help formats)
  SCRIPT   one event a line, at most 32 MiB and 1,000,000 events (help events)
  CONTROL  one step of the recovery a line, with a script's limits:
    order N    sends node N the order to go back
    repeat I   sends control message I once more, under a new number
    lose I     control message I is lost
    deliver I  control message I arrives: an order makes the node's part of the
               cut and is answered; an answer notes that the node is done
    finish     ends the recovery, where every node is noted

writes:
  standard output  the bytes that the program puts out, once validated
  standard error   each step of CONTROL with its answer, and then the summary

Control messages are numbered from 1; at most 64 are in flight.

exit status: 0 done, 1 usage, 2 store, 3 program, 4 script, 5 sink, 7 memory
             (help statuses)

examples:
  safetynet roll --nodes 1 examples/first/a.hex examples/roll/nothing.script \\
      examples/roll/one_node.control
  safetynet roll --nodes 2 examples/shared/count.hex \\
      examples/roll/moved_block.script examples/roll/each_node.control
";
