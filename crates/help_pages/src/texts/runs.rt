//! The commands whose workers pick the events.

pub const RUN: &str = "\
Runs a program with a worker for each node, in a thread of its own or by turns.
Each worker applies events that are due, under rules, until all cores have
ended, a recovery finds two nodes cut off, or the budget is spent.

usage: safetynet run [OPTIONS] PROGRAM

options, before or after the file, each at most once, as --nodes 2 or --nodes=2:
  --nodes N        how many nodes, 1 to 16 [default: 4]
  --sets N         sets of each cache, 1 to 256 [default: 16]
  --ways N         lines of each set, 1 to 16 [default: 4]
  --log N          entries of each node's log, 4 to 4096 [default: 256]
  --interval N     instructions of a node between two checkpoints, 1 to 1000000
                   [default: 100]
  --wait N         events without a validation before a recovery, 1 to 1000000
                   [default: 20000]
  --budget N       how many events at most, 1 to 1000000 [default: 1000000]
  --lose-every N   one in N moves of a message loses it, up to 1000000; 0 for
                   none [default: 0]
  --kill S@N       switch S, aN or bN of node N, dies after N events, 0 to
                   1000000 [default: none]
  --seed N         of the numbers that workers draw, and of drawn turns, 0 to
                   2^64 - 1 [default: 1]
  --order WORD     who has the next turn: threads, round or drawn
                   [default: threads]
  --watch ADDRESS  also show the word at ADDRESS in the summary: eight
                   hexadecimal digits, 80000000 to 803ffffc, a multiple of 4
  --trace          report the committed trace, one record a line, and then the
                   summary with \"# \" before each line
  --journal        report each event as a line of a script, its worker in a
                   comment, and then the summary with \"# \" before each line
  --accesses       report the committed trace as a table (CSV), and then the
                   summary with \"# \" before each line
  --statistics     report the summary, and behind it what was counted of the run:
                   lines \"stat NAME VALUE\" (help formats)
  --seeds A-B      with --order round or drawn: a run for each seed from A to B,
                   at most 1000000: a line \"seed S\", its report, how it ended

At most one of --trace, --journal, --accesses and --statistics stands.

reads:
  PROGRAM  an ELF file or a text of words, at most 16 MiB (help formats)

writes:
  standard output  the bytes that the program puts out, once validated
  standard error   the summary, after the trace, the journal or the table

With --order threads the threads decide whose turn comes next: two runs on more
than one node may differ. With --order round the workers' turns come in rounds,
with --order drawn each turn's worker is drawn, from the seed too; both on one
thread, and the same words and program give the same bytes. Each run can be had
again: replay its journal, a script, with the same sizes.

exit status: 0 done, 1 usage, 2 store, 3 program, 5 sink, 6 budget, 7 memory,
             8 cutoff, 10 trapped (help statuses)

examples:
  safetynet run --nodes 1 --interval 10 examples/first/a.hex
  safetynet run --nodes 2 --lose-every 500 --wait 2000 --budget 20000 --journal \\
      examples/shared/count.hex
  safetynet run --order drawn --seed 7 --budget 2000 examples/order/turns.hex
";

pub const MONITOR: &str = "\
Runs a program turn by turn, and publishes a snapshot of each validated cut. A
watcher in a thread of its own reads the newest one whenever it likes, waits for
nobody, and never sees an older cut after a newer one.

usage: safetynet monitor [OPTIONS] PROGRAM

options, before or after the file, each at most once, as --nodes 2 or --nodes=2:
  --nodes N        how many nodes, 1 to 16 [default: 4]
  --sets N         sets of each cache, 1 to 256 [default: 16]
  --ways N         lines of each set, 1 to 16 [default: 4]
  --log N          entries of each node's log, 4 to 4096 [default: 256]
  --interval N     instructions of a node between two checkpoints, 1 to 1000000
                   [default: 100]
  --wait N         events without a validation before a recovery, 1 to 1000000
                   [default: 20000]
  --budget N       how many events at most, 1 to 1000000 [default: 1000000]
  --lose-every N   one in N moves of a message loses it, up to 1000000; 0 for
                   none [default: 0]
  --kill S@N       switch S, aN or bN of node N, dies after N events, 0 to
                   1000000 [default: none]
  --seed N         of the numbers that workers draw, 0 to 2^64 - 1 [default: 1]
  --watch ADDRESS  also show the word at ADDRESS in the summary: eight
                   hexadecimal digits, 80000000 to 803ffffc, a multiple of 4

reads:
  PROGRAM  an ELF file or a text of words, at most 16 MiB (help formats)

writes:
  standard output  the bytes that the program puts out, once validated
  standard error   a line \"seen K C\" for each newer cut that the watcher saw, at
                   checkpoint K with C committed instructions; then the summary

The turns are those of worker 0, 1, .. and round again, so the events are the
same each time. Which of the cuts in between the watcher sees is left to the
threads; the last one that was published always has its line.

exit status: 0 done, 1 usage, 2 store, 3 program, 5 sink, 6 budget, 7 memory,
             8 cutoff, 10 trapped (help statuses)

examples:
  safetynet monitor --nodes 1 examples/first/a.hex
  safetynet monitor --nodes 2 --budget 20000 examples/shared/count.hex
";
