//! What several commands share: the events of scripts, the formats of texts, and the statuses.

pub const EVENTS: &str = "\
The events of a script, one a line. Empty lines and lines that begin with # are
skipped; one space stands between two words, and none anywhere else.

  step N       the core of node N does one instruction
  evict N B    the cache of node N gives up block B
  edge N       node N takes a checkpoint, and its next interval begins
  hop I        message I goes on to its next switch
  deliver I    message I is taken, where it stands at its receiver
  lose I       message I is lost
  kill S       switch S dies: aN or bN of node N
  report N     node N tells up to which checkpoint it has completed everything
  validate     the recovery point rises by one checkpoint
  recover      the whole machine goes back to the recovery point
  input N BB   node N is given a byte, two hexadecimal digits

Nodes count from 0. Block B is the 64 bytes from 80000000 + 64 B on, B from 0 to
65535. Messages are numbered from 1 in the order in which they are sent, and the
report tells each number. A number has no sign and no leading zero.

An event that can't happen is answered and changes nothing, and the replay goes
on: `deliver 9: nomessage` where no message 9 is in flight, `deliver 9: held`
where its receiver hasn't reached the message's interval, `validate: notready 1`
where node 1 hasn't reported that checkpoint. docs/FORMATS.md lists all answers,
and docs/PROTOCOL.md says what each event does.

A control file, for roll, has its own lines: see `safetynet help roll`.
";

pub const FORMATS: &str = "\
PROGRAM: a static ELF file for 32-bit RISC-V as a linker writes it, without
compressed instructions; or a text with one word of eight hexadecimal digits a
line, from address 80000000 up, in which empty lines and lines that begin with #
are skipped. Memory is 80000000 to 803fffff. Each core begins at the program's
entry with its number in x10. An ecall with 1 in x17 puts out the byte in x10,
one with 2 reads a byte into x10, and one with 93 ends the core with code x10.

    # put the byte 41 out, and end
    04100513
    00100893
    00000073

SCRIPT: one event a line (help events). CONTROL: one step of a recovery a line
(help roll). SAVE: a recovery point (help save). ACCESSES: one access to memory
a line (help judge). TRACE: one instruction a line, in the order of execution:

  N WORD F     the core of node N did one that saw WORD, eight hexadecimal
               digits; F is 1 where a store-conditional was done, else 0
  N WORD F BB  the same, and it read the byte BB

REPORT: a group for each event, and then the summary:

    5 report 0: reported 1
      msg 1 ready 0 0 1 1

  An event's line has its place, the event and the answer. A message that it
  sent has its number, kind, sender, receiver, tag (its sender's interval) and
  block (of a ready or an advance, a checkpoint), and the fields of its kind.
  After a recovery each core has a line `core N PC END` with the registers that
  aren't 0. The summary has the number of events, the recovery point, the
  lengths of committed trace and output, and each core there.
  Behind it --statistics has lines `stat NAME VALUE`, `stat NODE NAME VALUE`
  and one for each recovery; docs/FORMATS.md says what each name counts.

Numbers are decimal; words and addresses are eight hexadecimal digits.
docs/FORMATS.md has every format, with an example and each refusal.
";

pub const STATUSES: &str = "\
How a call ends: the exit status, and the word with which the last line on
standard error names it (`# safetynet: WORD`). The line above it says why
(`# why: ..`), with the file, its line, and what stands there.

   0  (none)         all is done
   1  usage          the words aren't a command, or a value isn't in its range
   2  store          a file is lacking or couldn't be read
   3  program CAUSE  PROGRAM is too long (toolong) or can't be loaded
   4  script CAUSE   SCRIPT, CONTROL, TRACE or ACCESSES is too long (toolong,
                     toomany), has a line of another form (badline), or names a
                     node, a block or a switch that isn't there (outofrange)
   5  sink           not all of the output could be written
   6  budget         a run has as many events as its budget, or a drive as many
                     as there is room for
   7  memory         there was not enough of it
   8  cutoff A B     in a run nodes A and B were found cut off from each other
   9  refused P      TRACE is no execution, or ACCESSES aren't legal; the P-th
                     instruction or access is the first that can't come after
                     those before it
  10  trapped N CAUSE  in a run all cores have ended, and N is the least node
                     whose core trapped
  12  save CAUSE     SAVE is too long (toolong), or this program can't go on from
                     it (badline, outofrange, cutoff, setfull, notlegal, unread):
                     see `safetynet help resume`
  13  asm CAUSE      TEXT is too long (toolong, toomanywords), has a line that is
                     no statement (badline), a number that doesn't fit
                     (outofrange), a label twice (labeltwice) or one that stands
                     nowhere (nolabel)
  14  input          in a drive standard input can't be read to its end

Where the words or a file are refused (1 to 4, 12, 13), or memory is lacking (7),
nothing was written before these two lines; but `replay --states`,
`run --seeds` and `drive` take memory as they go on, so some first events may
have been told, some first seeds done, or some first lines answered.
";
