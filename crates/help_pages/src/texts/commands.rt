//! The commands that run no machine of the user's.

pub const CHECK: &str = "\
Judges a trace, the instructions of a run in their order: whether it is an
execution of the program on one memory, without faults.

usage: safetynet check [--nodes N] PROGRAM TRACE

options, before or after the files, at most once, as --nodes 2 or --nodes=2:
  --nodes N   on how many nodes the program ran, 1 to 16 [default: 4]

reads:
  PROGRAM  an ELF file or a text of words, at most 16 MiB
  TRACE    one instruction a line, at most 32 MiB and 1,000,000 of them; what
           `replay --trace` and `run --trace` report is one (help formats)

writes:
  standard error   \"legal\" and the number of instructions; or \"refused\" and the
                   place, from 1, of the first that can't come after those
                   before it

exit status: 0 legal, 9 refused; 1 usage, 2 store, 3 program, 4 script (TRACE is
             refused), 5 sink, 7 memory (help statuses)

examples:
  safetynet check --nodes 2 examples/shared/count.hex \\
      examples/traces/additions.trace
  safetynet check --nodes 2 examples/shared/count.hex \\
      examples/traces/lost_addition.trace
";

pub const JUDGE: &str = "\
Judges accesses to memory by themselves, without a program: whether one memory
gives each read what it read, in the order of the list.

usage: safetynet judge ACCESSES

reads:
  ACCESSES  one access a line, at most 64 MiB and 1,000,000 of them:
              CORE OP ADDRESS SIZE VALUE
              CORE amo ADDRESS SIZE VALUE OLD
            OP is r (read), w (wrote), lr, sc (done), scfail; amo read OLD and
            wrote VALUE. ADDRESS has eight digits, from 80000000 to 803fffff,
            and is a multiple of SIZE: 1, 2 or 4. A value has two digits for
            each byte. Before the first access, lines
              init ADDRESS WORD
            say what memory has at the start; it is 0 elsewhere. Empty lines
            and lines that begin with # are skipped (help formats)

writes:
  standard error   \"legal\" and the number of accesses; or \"refused\" and the
                   place, from 1, of the first that isn't legal after those
                   before it. Then a line says why: \"expected VALUE since P\"
                   (memory has VALUE there, and access P was the last to write
                   it), or \"unreserved since P\" (an sc was done without its
                   core's reservation, which access P was the last to end).
                   P is 0 if it was so from the start

The accesses of every execution of every program are legal: that is proved.

exit status: 0 legal, 9 refused; 1 usage, 2 store, 4 script (ACCESSES is
             refused), 5 sink, 7 memory (help statuses)

examples:
  safetynet judge examples/judge/message_passing.accesses
  safetynet judge examples/judge/stale_value.accesses
";

pub const DEMO: &str = "\
Runs a program of its own, in which four nodes add to one word: a driver picks
the events, with a loss and a recovery now and then. It needs no file, and one
size gives one run.

usage: safetynet demo SIZE

  SIZE   how many events, 1 to 1000000

writes:
  standard error   the summary

exit status: 0 done, 1 usage, 5 sink, 7 memory (help statuses)

examples:
  safetynet demo 1000
  safetynet demo 1000000
";

pub const ASM: &str = "\
Turns a text in assembly language into the words of a program, one a line. What
it puts out is a PROGRAM for the other commands.

usage: safetynet asm TEXT

reads:
  TEXT   at most 16 MiB: an empty line, a comment from # on, a label `name:`, or
         one instruction a line. Left out: pseudoinstructions, sections, macros,
         directives other than .word, and the suffixes .aq and .rl

writes:
  standard output  each word as eight hexadecimal digits

exit status: 0 done, 13 asm (TEXT is refused), 1 usage, 2 store, 5 sink,
             7 memory (help statuses)

examples:
  safetynet asm examples/asm/counter.s
  safetynet asm examples/asm/lock.s
";

pub const DIS: &str = "\
Turns the executable words of a program into lines of assembly language, with a
line `# ADDRESS` before each stretch of them. What it puts out, asm takes.

usage: safetynet dis PROGRAM

reads:
  PROGRAM  an ELF file or a text of words, at most 16 MiB (help formats)

writes:
  standard output  one line a word; `.word` where it is no instruction

exit status: 0 done, 1 usage, 2 store, 3 program, 5 sink, 7 memory
             (help statuses)

examples:
  safetynet dis examples/shared/count.hex
  safetynet dis examples/first/a.elf
";
