//! What the help of each command tells behind its words: examples, and the statuses.

pub const CHECK: &str = "\
Examples:
  cilknow check fib.ck
  cilknow check fib.ck --explain

Status:
  0  the program is accepted
  1  the text or its kinds are refused
  2  usage
  3  no memory
  4  a file can't be read or written";

pub const PRINT: &str = "\
Examples:
  cilknow print fib.ck
  cilknow print fib.ck --explain

Status:
  0  printed
  1  the text is refused
  2  usage
  3  no memory
  4  a file can't be read or written";

pub const SERIAL: &str = "\
Examples:
  cilknow serial fib.ck 10
  cilknow serial fib.ck --turns 1000 10

Status:
  0  an outcome
  1  the text, its kinds or the input are refused
  2  usage
  3  no outcome: no memory, or more turns than allowed
  4  a file can't be read or written";

pub const RUN: &str = "\
Examples:
  cilknow run fib.ck 10
  cilknow run fib.ck --nodes 4 --crash 2 --trace run.script 12
  cilknow run fib.ck --nodes 2 --bodies 2 --store fib.store 12

Status:
  0  an outcome
  1  the text, its kinds or the input are refused
  2  usage
  3  no outcome: no memory, turns or frame numbers, or a store that is
     another job's, is none, or can't be written
  4  a file can't be read or written, or a store opened";

pub const REPLAY: &str = "\
Examples:
  cilknow replay fib.ck run.script 12
  cilknow replay fib.ck run.script --packets 12
  cilknow replay fib.ck run.script --names 12

Status:
  0  all events were carried out; with --names the packets that were sent
     have the names that the script tells, all of them and in their order
  1  the text, its kinds, the input or the script are refused; or a packet
     has another name
  2  usage
  3  no memory
  4  a file can't be read or written";

pub const DRAW: &str = "\
Examples:
  cilknow draw fib.ck run.script 12
  cilknow draw fib.ck run.script -o run.svg 12
  cilknow draw fib.ck run.script --work -o run.svg 12

Status:
  0  drawn
  1  the text, its kinds, the input or the script are refused
  2  usage
  3  no memory
  4  a file can't be read or written";

pub const MERGE: &str = "\
Examples:
  cilknow merge traces -o run.script
  cilknow replay fib.ck run.script --names 12

Status:
  0  each actor's lines stand in the script, all and in their order, and each
     packet that came behind its sending
  1  there is no such order; it is told whose line has no place
  2  usage
  3  no memory
  4  the folder or a file can't be read or written";

pub const STORE: &str = "\
Examples:
  cilknow store fib.store
  cilknow store fib.store --explain

Status:
  0  told
  2  usage
  3  no memory, or the file is no store
  4  a file can't be read or written";
