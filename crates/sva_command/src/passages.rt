//! The text of `svahost help all`, in its passages, of which each topic has some. `svahost`, the script, reads them here as long
//! as the program isn't built. Each begins with an empty line: a new step is a line of `STEPS`.

/// What the program is.
pub static PROGRAM: &str = "
Judges whether a driver's order of acts is safe, and runs scenarios of a host for shared virtual
addressing: PCI Express ATS, PRI and PASIDs, with the invalidations and page requests of Intel VT-d.
";

/// What a driver is.
pub static DRIVERS: &str = "
A driver is the order in which a host does what it does, a line for each act. Behind `race` it is open
what device, link and unit do beside its lines:

    config 1 4 1                   # one endpoint (a device), four frames, one worker
    device 0 1 asks 1 uses         # it may ask for a translation once, and use one once
    pte 0 16 0 w                   # page 16 of space 0 leads to frame 0
    entry 0 1 0                    # at endpoint 0, PASID 1 is space 0
    start 0 1                      # the device may use that PASID
    deliver start 0
    race
    pte 0 16 none                  # the page goes,
    submit 0 range 1 16 0 + wait   # its invalidation is queued, and a wait behind it,
    free 0                         # and the frame is another owner's

`svahost judge FILE` follows every order, and prints `safe in all N moments`, or a shortest list of
events behind which an endpoint may still use a frame that has another owner, say. Here that has 5
events; with `await wait 0` above `free 0` the order is safe. `--most N` is how many moments are looked
at, at most; `--run` takes the lines one after another instead, and looks at no other order; `--all`
tells each finding that isn't behind another one; with `--strict` the status is 8 where nothing was
ever tried. The acts stand further down.
";

/// What a scenario is.
pub static SCENARIOS: &str = "
A scenario is a text on standard input, of at most 65536 lines and 1048576 bytes. Its first line is
the config: how many endpoints, frames and workers there are. Each further line is a step. Words are
separated by one space, and numbers are decimal. Lines that are empty or begin with # are skipped. A
first scenario, as in examples/first.sva:

    # one endpoint, four frames, one worker
    config 1 4 1
    # an address space, whose number is 0
    space
    # page 16 of space 0 leads to the lowest free frame, and may be read and written
    map 0 16 w
    # no endpoint is bound to the space, so the frame is free at once
    unmap 0 16
    # r: it may only be read
    map 0 16 r
";

/// How the program is built.
pub static BUILDING: &str = "
The script ./svahost first builds the program where there is none of the present sources: in two to
four minutes, without its proof. `./svahost prove` proves it on this machine, with all that it stands
on, which takes about an hour on four cores; `./svahost --version` says which of the two is run.
";

/// What is made of a scenario.
pub static RUNNING: &str = "
`svahost replay < examples/first.sva` runs the steps and prints a report, a line for each step and
last the counts:

    space 0
    frame 0
    free 0
    frame 0
    free 3 mapped 1 withheld 0

`svahost check` runs nothing and prints `steps 4`.

`svahost storm --turns 100` plays the scenario by threads on one host: one for the host, one for the
link, one for the service, one for each endpoint and each worker. Each has N turns, 1 to 1000000, or
10000 where --turns is missing. Host and endpoints play their own lines in order, each until it is
accepted; the lines `take`, `answer`, `deliver`, `pump` and `serve` are skipped. The link delivers
the messages by their numbers, the service pumps and serves each endpoint in turn, and the workers
take jobs and answer them. At the end each thread's receipts are compared with the journal of all:

    audit ok
    frames 4

or else `audit bad`.
";

/// What a script is, and what is made of it.
pub static SCRIPTS: &str = "
A script is a scenario in which nobody counts. `NAME:` before a step names its line. In later lines
the name is a number that the step was answered, or the first message that it sent, by where it
stands. `deliver KIND E` is of the oldest message of a kind that is in flight at endpoint E. Behind
`=>` stands the answer that is expected, and behind # a comment:

    config 1 4 1
    s: space
    m: map s 0x10 w           # a page may be hexadecimal
    b: bind 0 s
    deliver b                 => started
    unmap s 0x10              => withheld m
    p: pump 0                 => itag _
    deliver invalidate 0      => taken
    f: finish 0 {p} 1         => sent 1
    deliver f                 => freed 1
    end                       => free 3 mapped 0 withheld 1

`svahost test` prints `7 answers as expected`, or the first that isn't: `line 6: unmap 0 16: expected
'free 0', answered 'withheld 0'`. `svahost trace` prints each step with its answer and its messages,
as it comes; `--live` leaves out the padding of columns. `svahost show` prints what the host keeps
behind the last line, and `svahost plain` the scenario with all numbers. `svahost why` prints for
each step that was refused, blocked or withheld what holds it back, and in brackets a step that would
be accepted; `svahost trace --why` prints the same behind the rows of these steps, and `svahost test`
behind an answer that isn't as expected. `svahost chart` draws the run: each message from its sending
to its delivery; `--svg` as a picture. Each scenario is a script.
`svahost show --after N` shows what is kept behind line N.
";

/// What a race is, and what is made of it.
pub static RACES: &str = "
A race is a script that leaves open who comes first. Behind the word `race` stand the lines of threads:
of the host, of each endpoint, each unit and each worker, or those below `thread NAME`. Each thread
keeps its order, and a line that is refused waits. The link, the units, the workers and the endpoints
go on by themselves. Last stand the claims, in which `usable FRAME [at E]` says that endpoint E, or any,
may touch the frame:

    config 1 4 1
    s: space
    m: map s 0x10 w
    b: bind 0 s
    deliver b                 => started
    race
    a: ask 0 b 0x10
    u: use 0 b 0x10 w
    out: unmap s 0x10
    never usable m at 0 and out is free m
    ends always done u

`svahost explore` follows every order, and prints of each claim whether it holds, fails, or is unknown
since `--most N` moments were looked at. Below its first line stands what the ends come to, a line for
each text; `--ends` prints no more than 20. A claim that fails has a witness, a shortest scenario that
`replay` takes; so has a `sometimes` that holds. With `--why` stands behind each witness what `why`
says of its steps, and which lines wait where it ends, with what holds them back.
";

/// What is said of files.
pub static NAMED: &str = "
Each command takes a FILE in the place of standard input, whose name is `-`. `svahost explore FILE ..`
searches several at once, `--jobs N` of them or one a processor, and prints a line for each, of one file the
report; so do `judge`, `check`, `test` and `why`. `--part K/N` is every N-th of them, from the K-th on. A
wrong line of a file is told as `FILE:LINE:COLUMN: error: ..`.
";

/// The config, and the steps.
pub static STEPS: &str = "
The config, and the steps. E is an endpoint, S a space, B a binding, M a message, F a frame and W a
worker, each numbered from 0, and a word in brackets may be missing:

    config E N W           1 to 8 endpoints, 1 to 4096 frames, 1 to 4 workers
    space                  a new empty space; at most 64 live ones
    drop S                 the space goes, and its frames are free; not while it is bound
    map S PAGE r           the page leads to the lowest free frame, for reading
    map S PAGE w           for writing and reading; at most 1024 pages a space, below page 2^36
    unmap S PAGE [COUNT]   1 to 48 pages, 1 if missing, from PAGE on leave the space
    unmapr S PAGE K        those of the 2^K pages from PAGE on, K 0 to 9, PAGE a multiple of 2^K
    look F                 where frame F is: free, mapped or withheld
    bearer P               which space bears PASID P, 1 to 32
    bind E S               space S is at endpoint E, under the PASID that it bears or a new one;
                           at most 32 PASIDs are borne
    unbind B               binding B is to end: its endpoint is told to stop
    advance B              it goes on to its next stage, and at last it is released
    reset E                endpoint E is to be reset, and its unit closed
    pump E                 the head of endpoint E's invalidation queue, which has 64 places, is
                           sent under one of 32 ITags, or a wait is over
    serve E                the oldest page request of endpoint E is filed; a whole group is a job
    take W                 worker W takes the oldest job in its hand
    answer W success       it answers the job: its pages are mapped; or `invalid`, or `failure`
    deliver M              message M arrives; messages are numbered as they are sent

An endpoint's steps, under a PASID P:

    ask E P PAGE           a translation of the page is asked for; at most 32 are asked for at once,
                           and at most 64 translations are held at an endpoint
    use E P PAGE r         a use of the translation that is held begins: it reads
    use E P PAGE w         it writes
    end E U                the use in slot U, 0 to 15, ends
    evict E P PAGE         the translation that is held goes
    fault E P PAGE A G L   a page request; A is r, w or rw, G new or the index of an unfinished
                           group, L more or last; at most 32 have no response yet
    finish E VECTOR COUNT  invalidations are answered, those of the ITags whose bits are set in
                           VECTOR, eight lower-case hexadecimal digits as 0000000b, by 1 to 8
                           completions
    quit E P               the PASID isn't used any more
";

/// The acts of a driver, and its settings.
pub static ACTS: &str = "
The acts of a driver. S is any space, 0 to 63, I a group's index, P a PASID, 1 to 32, or 0 for requests
without a PASID; pages may be hexadecimal:

    pte S PAGE F w         the page leads to the frame; `r`: only to read; `none` for F w: it goes
    entry E P S            the PASID table entry leads to the space; `none` for S: it goes
    replace E P S          it leads there for the owner that P has: a new table in place of the old
    start E P              the device may use the PASID
    stop E P               it is to stop; `await stopped E P`: it has said that it did
    barrier E P            it is to drain it, and doesn't stop it; `await passed E P`: it has
    submit E D [+ D ..]    descriptors are queued: `range P PAGE K [of F]`, `pasid P [of F]`,
                           `iotlb P [PAGE K] [of F]`, `entry P [of F]`, `wait [drain] [fence]`;
                           behind `of` stands another device below the same unit
    await wait E           the last wait that this thread submitted is done; of one line `await NAME`
    await queue E [P]      no page request stands in the queue
    await groups E [P]     each whole group that was filed is answered
    serve E                the oldest page request is filed
    respond E P I success  a group is answered; or `invalid`, or `failure`; `respond all E [P] success`:
                           each whole one that was filed is; `discard E [P]` drops the others
    free F                 the frame has another owner; `free pasid P E`, `free space S`, and
                           `free domain S`, by which workers serve the space's groups
    freeze F               nobody may write the frame any more
    reset E                the device is reset; `await reset E`
    ats E on, ats E off    the device's ATS is turned on or off; `pri E on`, `pri E off`: its page
                           requests; `mastering E on`, `mastering E off`: bus mastering
    await idle E           no translation request of the device is out, and no use runs
    await gone E           the device was removed, and nothing of it is on its way up
    close E, open E        the unit is closed, and is open again
    skip E                 the head of the invalidation queue is taken out, whatever it is
    resume E               the unit goes on that has stopped at a time-out, or overflowed
    lock L, unlock L       a lock that threads share
    mark                   nothing; as `NAME: mark` another thread awaits it by `await NAME`
    if [not] CONDITION     a look, by which the thread goes on, up to `else` or `end`: at a flag, which
                           is its name, or at `present E P`, an entry that leads to a space; `stopped E P`,
                           an answer to a stop; `filed E [P]`, a group; `queued E [P]`, a page request;
                           `gone E`, a device that was removed; `overflow E`, a queue that lacked a place;
                           `failed`, a wait that was aborted, of what this thread awaited last
    set NAME, clear NAME   the flag is set, or clear as at first

Settings stand above the first act: `link free` or `posted`, `waits fence` or `plain`, `drain empty` or
`arrived`, `caches off` or `on`, `stopped marker`, `status` or `known`, `order queue` or `loose`,
`enables kept` or `cleared` by a reset, `timeouts off`, `on` or `stop`; and before these `platform
vt-d`, which is `link posted`, `waits plain`, `drain arrived`, `caches on` and `order loose`, or
`platform free`. By `refuses drain` the unit takes no wait with `drain`, by `allow no-group` a response
that finds no group is no finding, by `places N` a page request queue has N places, and overflows where
there is none, and by `unit E E ..` devices stand below one unit, and share its queues. Threads, workers
and devices are as in a race, but that a device may have `lies`, `awaits` and `leaves` too. The lines
from `def NAME $X` to its `end` stand where `call NAME WORD` does, with the word for `$X`; those from
`repeat N` to its `end` stand N times. A unit, as a link or a device, acts by itself: `pump E`, or with
`order loose` `pump E N`, which takes what stands at place N of its queue; `write E`, the oldest page
request that it has received comes into the queue; `forget E P`; `expire E T`, an invalidation that
isn't answered runs out of time; and a device that `leaves` is removed at some moment: `gone E`.
";

/// Which steps send messages, what becomes of these, and of frames and bindings.
pub static MESSAGES: &str = "
These steps send a message, and no others. Behind it stands what its delivery is answered:

    bind                   Start: `started`
    unbind                 Stop: `stopping`; none where a reset has cut the binding off
    reset                  Reset: `reset`. Its delivery sends ResetDone: `reset done`
    pump, if `itag T`      Invalidate: `taken`
    answer                 Response: `answered`, or `stale`; none where it is `dropped`
    ask                    Request: `completion`. Its delivery sends Completion: `held`, `full`,
                           `none` or `dropped`
    fault                  PageRequest: `queued`
    finish                 COUNT times Invalidated: `freed K`, the ITags that are free by it
    quit                   Marker: `marked`

They are numbered together, from 0, as they are sent, and come in any order, but that of one endpoint
Start, Stop and Reset stay behind each older message to it that is no Completion; a PageRequest with
`last` and a Marker stay behind each older PageRequest; and a ResetDone stays behind all. Else
`deliver` is refused 33. At a unit in reset each message to the host but ResetDone is `dropped`.

A binding is live, and then by `unbind` stopping, until its endpoint has got the Stop, has quit, and
the Marker has come; by `advance` draining, until its page requests are filed and answered and the
wait is done; by `advance` invalidating, until its invalidation is answered and the wait is done; by
`advance` quiet; and by `advance` released.

A frame whose page is unmapped is free at once where no endpoint can hold its translation, and else
withheld until each has answered an invalidation.

A step that isn't allowed is answered `refused N Name`, changes nothing, and the run goes on. Where
a line can't be read nothing is run, and the report is that line's fault alone: `line 2 WordCount`.
";

/// The statuses.
pub static STATUSES: &str = "
The status says how a command ended:

  0  done, refused steps too; all claims of a race hold; a driver is safe, or `--run` found nothing
     wrong; help and the version
  1  a line that can't be read or is wrong, a config out of its limits, a bad audit, an answer that
     isn't as expected, an act that isn't permitted; or a fault of a stream, or memory that ran out:
     of these standard error tells in a line
  2  a wrong command line, or a FILE that can't be read; standard error tells of it
  3  of the script svahost alone: it can't build the program
  4  a claim of a race fails; a driver is unsafe or stuck
  5  no claim fails and one is unknown; the search of a driver was cut off
  6  of several files: memory ran out for one
  8  with `--strict`: a driver is safe, but nothing was ever tried

All else goes to standard output.
";

/// Where more is said.
pub static MORE: &str = "
docs/FORMAT.md describes scenarios, steps, refusals and reports, and examples/ has more of them.
";
