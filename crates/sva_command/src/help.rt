//! What the program says of itself. `svahost`, the script, reads its version here as long as the program isn't built.

/// The program's version.
pub const VERSION: &str = "0.2.0";

/// What `-h` says of the program.
pub const ABOUT: &str =
    "Judges a driver's order of acts, and runs scenarios of shared virtual addressing";

/// What `-h` says of `replay`.
pub const REPLAY: &str = "Runs a scenario, and prints its report";

/// What `-h` says of `check`.
pub const CHECK: &str = "Reads a scenario, and prints how many steps it has";

/// What `-h` says of `storm`.
pub const STORM: &str = "Plays a scenario by threads, and prints what an audit of them says";

/// What `-h` says of `plain`.
pub const PLAIN: &str = "Prints the scenario that a script stands for";

/// What `-h` says of `test`.
pub const TEST: &str = "Runs a script, and compares each answer with what it expects";

/// What `-h` says of `show`.
pub const SHOW: &str = "Runs a script, and prints what the host keeps behind its last line";

/// What `-h` says of `why`.
pub const WHY: &str = "Runs a script, and prints what holds each refused step back";

/// What `-h` says of `chart`.
pub const CHART: &str = "Runs a script, and draws it as a sequence chart";

/// What `-h` says of `explore`.
pub const EXPLORE: &str = "Follows every order of a race, and prints which claims hold";

/// What `-h` says of `--most`.
pub const MOST: &str =
    "How many moments are looked at at most, 1 to 1000000000; files searched at once share them";

/// What `-h` says of `--why` of `explore`.
pub const WAITS: &str =
    "Behind each witness stands what holds its own steps back, and the lines that wait where it ends";

/// What `-h` says of `--ends`.
pub const ENDS: &str = "No more than 20 texts of ends are printed, and how many are left out";

/// What the help of `replay` says of how it is called.
pub const REPLAY_USAGE: &str = "svahost replay [FILE]";

/// What the help of `check` says of how it is called.
pub const CHECK_USAGE: &str = "svahost check [FILE]..";

/// What the help of `storm` says of how it is called.
pub const STORM_USAGE: &str = "svahost storm [OPTIONS] [FILE]";

/// What the help of `plain` says of how it is called.
pub const PLAIN_USAGE: &str = "svahost plain [FILE]";

/// What the help of `test` says of how it is called.
pub const TEST_USAGE: &str = "svahost test [FILE]..";

/// What the help of `show` says of how it is called.
pub const SHOW_USAGE: &str = "svahost show [--after N] [FILE]";

/// What the help of `why` says of how it is called.
pub const WHY_USAGE: &str = "svahost why [FILE]..";

/// What the help of `chart` says of how it is called.
pub const CHART_USAGE: &str = "svahost chart [OPTIONS] [FILE]";

/// What the help of `trace` says of how it is called.
pub const TRACE_USAGE: &str = "svahost trace [OPTIONS] [FILE]";

/// What the help of `explore` says of how it is called.
pub const EXPLORE_USAGE: &str = "svahost explore [OPTIONS] [FILE]..";

/// What the help of `judge` says of how it is called.
pub const JUDGE_USAGE: &str = "svahost judge [OPTIONS] [FILE]..";

/// What `-h` says of `judge`.
pub const JUDGE: &str = "Follows every order of a driver, and prints whether each is safe";

/// What `-h` says of `--run`.
pub const RUN: &str =
    "The lines are taken one after another, as they stand: no other order is looked at";

/// What `-h` says of `--strict`.
pub const STRICT: &str =
    "The status is 8 where nothing was ever tried, and the verdict so says nothing";

/// What `-h` says of `--all`.
pub const ALL: &str =
    "Each finding that isn't behind another one is told, with a shortest list of events to it";

/// What `-h` says of `--needed`.
pub const NEEDED: &str =
    "Each line that keeps others off is left out in turn, and it is told whether the rest is safe";

/// What is told of `--needed` with `--run`.
pub const NEEDED_RUN: &str = "the argument '--needed' cannot be used with '--run'";

/// What is told of `--strict` with `--needed`.
pub const STRICT_NEEDED: &str = "the argument '--strict' cannot be used with '--needed'";

/// What is told of `--all` with `--needed`.
pub const ALL_NEEDED: &str = "the argument '--all' cannot be used with '--needed'";

/// What `-h` says of `--platforms`.
pub const PLATFORMS: &str =
    "The driver is judged on VT-d too, and on VT-d with each setting by which less is left open";

/// What is told of `--platforms` with `--run`.
pub const PLATFORMS_RUN: &str = "the argument '--platforms' cannot be used with '--run'";

/// What is told of `--strict` with `--platforms`.
pub const STRICT_PLATFORMS: &str = "the argument '--strict' cannot be used with '--platforms'";

/// What is told of `--all` with `--platforms`.
pub const ALL_PLATFORMS: &str = "the argument '--all' cannot be used with '--platforms'";

/// What is told of `--platforms` with `--needed`.
pub const PLATFORMS_NEEDED: &str = "the argument '--platforms' cannot be used with '--needed'";

/// What `-h` says of `--chart`.
pub const DRAWN: &str =
    "The list of events is drawn as a sequence chart, with what is in flight meanwhile";

/// What is told of `--chart` with `--run`.
pub const CHART_RUN: &str = "the argument '--chart' cannot be used with '--run'";

/// What is told of `--strict` with `--chart`.
pub const STRICT_CHART: &str = "the argument '--strict' cannot be used with '--chart'";

/// What is told of `--all` with `--chart`.
pub const ALL_CHART: &str = "the argument '--all' cannot be used with '--chart'";

/// What is told of `--chart` with `--needed`.
pub const CHART_NEEDED: &str = "the argument '--chart' cannot be used with '--needed'";

/// What is told of `--chart` with `--platforms`.
pub const CHART_PLATFORMS: &str = "the argument '--chart' cannot be used with '--platforms'";

/// What is told of `--all` with `--run`.
pub const ALL_RUN: &str = "the argument '--all' cannot be used with '--run'";

/// What is told of `--strict` with `--run`.
pub const STRICT_RUN: &str = "the argument '--strict' cannot be used with '--run'";

/// What `-h` says of `trace`.
pub const TRACE: &str = "Runs a script, and prints each step with its answer and its messages";

/// What `-h` says of `--live`.
pub const LIVE: &str = "A tab ends a column, and none is padded";

/// What `-h` says of `--svg`.
pub const SVG: &str = "The chart is a picture, an SVG file, and not text";

/// What `-h` says of `--why` of `trace`.
pub const WHYS: &str =
    "Behind each step that was refused, blocked or withheld stands what holds it back";

/// What `-h` says of `--turns`.
pub const TURNS: &str = "How many turns each thread has, 1 to 1000000";

/// What is written where clap has no text for a command line.
pub const NO_TEXT: &str =
    "svahost: nothing is known of this command line; docs/FORMAT.md describes the program\n";

/// What `--help` says behind the options.
pub static TOPICS: &str = "Help on a command, or on a topic:
  svahost help judge
  svahost help scenarios, scripts, races, drivers, statuses or all";

/// What the help of `replay` says behind the options.
pub static REPLAY_ENDS: &str = "Files:
  [FILE]  Read in the place of standard input, whose name is -

Status:
  0  The steps were run, refused ones too
  1  A line or the config is wrong, a stream failed, or memory ran out
  2  The command line is wrong, or the FILE can't be read

Example (its language: svahost help scenarios):
  $ svahost replay examples/first.sva
  space 0
  frame 0
  free 0
  frame 0
  free 3 mapped 1 withheld 0";

/// What the help of `check` says behind the options.
pub static CHECK_ENDS: &str = "Files:
  [FILE]..      Read in the place of standard input, whose name is -; of several each has a line
  --part <K/N>  Of the files every N-th is searched, from the K-th on
  --jobs <N>    So many are searched at once, 1 to 256; if not given, one a processor

Status:
  0  Each line can be read
  1  A line is wrong, a stream failed, or memory ran out
  2  The command line is wrong, or a FILE can't be read
  6  Of several files memory ran out for one

Example (its language: svahost help scenarios):
  $ svahost check examples/first.sva
  steps 4";

/// What the help of `storm` says behind the options.
pub static STORM_ENDS: &str = "Files:
  [FILE]  Read in the place of standard input, whose name is -

Status:
  0  The audit is ok
  1  It is bad, a line or the config is wrong, a stream failed, or memory ran out
  2  The command line is wrong, or the FILE can't be read

Example (its language: svahost help scenarios):
  $ svahost storm --turns 100 examples/first.sva
  audit ok
  frames 4";

/// What the help of `plain` says behind the options.
pub static PLAIN_ENDS: &str = "Files:
  [FILE]  Read in the place of standard input, whose name is -

Status:
  0  The scenario was printed
  1  A line is wrong, a stream failed, or memory ran out
  2  The command line is wrong, or the FILE can't be read

Example (its language: svahost help scripts):
  $ svahost plain examples/first.svs
  # A page is mapped, unmapped, and its frame used again.

  # One endpoint, four frames, one worker.
  config 1 4 1
  ..";

/// What the help of `test` says behind the options.
pub static TEST_ENDS: &str = "Files:
  [FILE]..      Read in the place of standard input, whose name is -; of several each has a line
  --part <K/N>  Of the files every N-th is searched, from the K-th on
  --jobs <N>    So many are searched at once, 1 to 256; if not given, one a processor

Status:
  0  Each answer is as expected
  1  One isn't, a line or the config is wrong, a stream failed, or memory ran out
  2  The command line is wrong, or a FILE can't be read
  6  Of several files memory ran out for one

Example (its language: svahost help scripts):
  $ svahost test examples/held-back.svs
  15 answers as expected";

/// What the help of `show` says behind the options.
pub static SHOW_ENDS: &str = "Files:
  [FILE]       Read in the place of standard input, whose name is -
  --after <N>  What is kept behind line N is printed, 1 to 999999999

Status:
  0  The steps were run, refused ones too
  1  A line or the config is wrong, a stream failed, or memory ran out
  2  The command line is wrong, or the FILE can't be read

Example (its language: svahost help scripts):
  $ svahost show examples/first.sva
  space 0     page 16 frame 0
  unit 0      open, waits done below 0
  frames      free 3 mapped 1 withheld 0";

/// What the help of `why` says behind the options.
pub static WHY_ENDS: &str = "Files:
  [FILE]..      Read in the place of standard input, whose name is -; of several each has a line
  --part <K/N>  Of the files every N-th is searched, from the K-th on
  --jobs <N>    So many are searched at once, 1 to 256; if not given, one a processor

Status:
  0  The steps were run, refused ones too
  1  A line or the config is wrong, a stream failed, or memory ran out
  2  The command line is wrong, or a FILE can't be read
  6  Of several files memory ran out for one

Example (its language: svahost help scripts):
  $ svahost why examples/held-back.svs
  line 19: unmap 0 16: withheld 0
      wait 0 of unit 0 isn't done [pump 0]
  ..";

/// What the help of `chart` says behind the options.
pub static CHART_ENDS: &str = "Files:
  [FILE]  Read in the place of standard input, whose name is -

Status:
  0  The steps were run, refused ones too
  1  A line or the config is wrong, a stream failed, or memory ran out
  2  The command line is wrong, or the FILE can't be read

Example (its language: svahost help scripts):
  $ svahost chart examples/held-back.svs
  line host  endpoint 0
  3    :     :                    space => space 0
  4    :     :                    map 0 16 w => frame 0
  7    o--.  :  -> 0 start        bind 0 0 => binding 0 pasid 1
  8    :  '->o  <- 0 start        deliver 0 => started
  ..";

/// What the help of `explore` says behind the options.
pub static EXPLORE_ENDS: &str = "Files:
  [FILE]..      Read in the place of standard input, whose name is -; of several each has a line
  --part <K/N>  Of the files every N-th is searched, from the K-th on
  --jobs <N>    So many are searched at once, 1 to 256; if not given, one a processor

Status:
  0  All claims hold, or there is none
  1  A line or the config is wrong, a stream failed, or memory ran out
  2  The command line is wrong, or a FILE can't be read
  4  A claim fails
  5  None fails, and one is unknown
  6  Of several files memory ran out for one

Example (its language: svahost help races):
  $ svahost explore examples/races/late-use.svr
  whole: 182 moments, 6 ends
  ..";

/// What the help of `judge` says behind the options.
pub static JUDGE_ENDS: &str = "Files:
  [FILE]..      Read in the place of standard input, whose name is -; of several each has a line
  --part <K/N>  Of the files every N-th is searched, from the K-th on
  --jobs <N>    So many are searched at once, 1 to 256; if not given, one a processor

Status:
  0  Each order is safe; with --run nothing is wrong
  1  A line or the config is wrong, an act isn't permitted, a stream failed, or memory ran out
  2  The command line is wrong, or a FILE can't be read
  4  An order is unsafe, or stuck
  5  The search was cut off
  6  Of several files memory ran out for one
  8  With --strict: nothing was ever tried

Example (its language: svahost help drivers):
  $ svahost judge examples/judge/free-behind-wait.svd
  safe in all 601 moments";

/// What the help of `trace` says behind the options.
pub static TRACE_ENDS: &str = "Files:
  [FILE]  Read in the place of standard input, whose name is -

Status:
  0  The steps were run, refused ones too
  1  A line or the config is wrong, a stream failed, or memory ran out
  2  The command line is wrong, or the FILE can't be read

Example (its language: svahost help scripts):
  $ svahost trace examples/first.sva
  7    space                      space 0
  10   map 0 16 w                 frame 0
  13   unmap 0 16                 free 0
  16   map 0 16 r                 frame 0
       end                        free 3 mapped 1 withheld 0";
