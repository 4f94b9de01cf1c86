//! What there is, and which version.

pub const VERSION: &str = "safetynet 0.1.0\n";

pub const OVERVIEW: &str = "\
Simulates a SafetyNet multiprocessor: 1 to 16 RISC-V nodes with coherent caches
that take checkpoints together, lose messages, and go back to a consistent cut.
What it answers is proved of its definitions.

usage: safetynet COMMAND [OPTIONS] FILES

commands:
  replay PROGRAM SCRIPT        applies the events of a script, one after another
  drive PROGRAM                does the same line by line, from standard input
  roll PROGRAM SCRIPT CONTROL  recovers node by node, by orders that may be lost
  save PROGRAM SCRIPT          writes the recovery point that a script leads to
  resume PROGRAM SAVE SCRIPT   goes on from such a point with another script
  run PROGRAM                  lets a worker for each node pick the events
  monitor PROGRAM              the same, turn by turn, with a watcher beside it
  check PROGRAM TRACE          judges whether a trace is an execution
  judge ACCESSES               judges accesses to memory, without a program
  demo SIZE                    runs a program of its own; needs no file
  asm TEXT                     turns assembly text into a program
  dis PROGRAM                  turns a program into assembly text

help:
  safetynet COMMAND --help     a command's page (also -h, help, help COMMAND)
  safetynet help events        the events that a script may have
  safetynet help formats       programs, scripts, control files, traces, reports
  safetynet help statuses      how a call can end
  safetynet --version          the version

A PROGRAM is a static ELF file for 32-bit RISC-V, or a text with one word of
eight hexadecimal digits a line, from address 80000000 up.
A SCRIPT is a text with one event a line, such as `step 0` or `deliver 3`; what
`run --journal` reports is one.

What the program puts out goes to standard output once its checkpoint is
validated. The report goes to standard error.

examples:
  safetynet replay --nodes 2 --watch 80001000 \\
      examples/shared/count.hex examples/shared/shared_word.script
  safetynet demo 1000
";
