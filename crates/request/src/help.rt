//! What the help of each command says behind its arguments: the lines that it prints, with their
//! units, its statuses, and how to call it. The files of the examples are those of samples/ and of
//! the README's walk.

pub(crate) const ALCRS: &str =
    "Statuses: 0 done or yes, 1 no or a fault, 2 the command line is refused, 3 too little came, or
`check` found less to spare than was asked for.
`-` as an input is standard input. `-` as OUT is standard output: the lines go to standard error
then.
A sentence on standard error may tell the cause. --quiet leaves it out.
`alcrs COMMAND --help` tells what a command prints. A command that fails prints `fault REASON`.

Example: alcrs check bulletin.session bulletin.txt bulletin.rsc --tsi 7 --toi 1";

pub(crate) const ENCODE: &str = "Prints `encoded D datagrams`.
OBJECT comes first: a file that is there under the second name is replaced, unless it is OBJECT or
-n is given.
The FTI is the object's length, --symbol, --block and --max.
--order blocks sends block after block, --order rounds one symbol of each block in turn.
A datagram with the FTI has 32 bytes before its symbol, and one without it 20.
A listener who gets no datagram with the FTI can't decode.
Statuses: 0 done, 1 a fault, 2 the command line is refused.

Example: alcrs encode bulletin.txt bulletin.session --tsi 7 --toi 1 --symbol 250 --block 32 --max 40
Example: alcrs encode note.txt sparse.session --tsi 7 --toi 2 --symbol 8 --block 8 --max 12 \\
           --fti-every 4";

pub(crate) const CERTIFY: &str = "Prints `certified N blocks`.
OBJECT comes first: a file that is there under the second name is replaced, unless it is OBJECT or
-n is given.
Statuses: 0 done, 1 a fault, 2 the command line is refused.

Example: alcrs certify bulletin.txt bulletin.rsc --tsi 7 --toi 1 --symbol 250 --block 32 --max 40";

pub(crate) const CONVERT: &str =
    "Reads a certificate of either layout, RSC1 or RSC2. It refuses one for another TSI or TOI.
Prints `converted N blocks`.
Statuses: 0 done, 1 a fault, 2 the command line is refused.

Example: alcrs convert note.rsc1 note.rsc --tsi 7 --toi 2";

pub(crate) const CHECK: &str = "Prints `no` and the first reason, or `yes` and these lines:
  block B need K have H  for each block B: it needs K symbols, and has H different ones
  carriers C             C datagrams have the FTI
  margin M               any M datagrams may be missed
  kill P P ..            the places of M + 1 datagrams that may not all be missed
  burst N                any N neighbouring datagrams may be missed
Blocks and places count from 0. Places are those of the whole session.
It passes over datagrams of another TSI or TOI.
With --picture it draws a yes, too. At a no OUT stays as it is.
With --summary it prints `yes` and these lines:
  weakest block B need K have H  block B is the first of those with the fewest symbols to spare
  carriers C                     C datagrams have the FTI
  repeats R                      R datagrams have a symbol that one before them has, too
  margin M                       any M datagrams may be missed
  kill block B                   some M + 1 datagrams, missed together, leave block B short
  burst N place P block B        N + 1 neighbours, missed from place P on, leave block B short
`carriers` in place of `block B` says that no carrier is left.
Statuses: 0 yes, 1 no or a fault, 2 the command line is refused, 3 yes, but the session bears fewer
losses than --margin or --burst asks for.

Example: alcrs check bulletin.session bulletin.txt bulletin.rsc --tsi 7 --toi 1";

pub(crate) const DROP: &str =
    "PLACE is N, or a range N-M with N at most M: N, M and all places between, 0 to 4294967295.
FILE has places, written as PLACE is, with white space between them. It may be a pipe.
A place that is named twice counts once. A PLACE or --places has to be given.
The places come last: if OUT is left out, the first PLACE is taken for OUT.
Prints `kept D datagrams`.
Statuses: 0 done, 1 a fault, 2 the command line is refused.

Example: alcrs drop note.session thin.session 0-2
Example: echo 0-2 5 | alcrs drop note.session thin.session --places -";

pub(crate) const SALVAGE: &str =
    "Keeps the datagrams whose frames SESSION begins with: all of them, or those before the place
where it ends inside a frame, or where a frame tells a length above 65507.
Prints `kept D datagrams`. SESSION may be a pipe.
Statuses: 0 SESSION is whole, 1 it isn't or a fault, 2 the command line is refused.

Example: alcrs salvage cut.session whole.session";

pub(crate) const JOIN: &str =
    "OUT comes first: a session that is named in its place is replaced, unless -n is given.
Writes all datagrams of the first session, then all of the second, and so on.
With --turns it writes one datagram of each session in turn, and passes over those that ended.
Prints `joined D datagrams`.
Statuses: 0 done, 1 a fault, 2 the command line is refused.

Example: alcrs join two.session bulletin.session note.session --turns";

pub(crate) const DECODE: &str = "Prints one of these lines:
  object L bytes                 the object was written, L bytes
  missing block B have H need K  block B is the first that is short: H of K symbols are there
  empty                          no datagram has the FTI
  fault REASON                   why the datagrams are of no object, or what failed
Blocks and places count from 0. Places are those of the whole session.
Datagrams of another TSI or TOI are passed over.
Statuses: 0 the object is written, 1 a fault, 2 the command line is refused, 3 `missing` or `empty`.

Example: alcrs decode bulletin.session received.txt --tsi 7 --toi 1";

pub(crate) const FOLLOW: &str = "Prints a line for each datagram that it leaves out:
  refused P REASON               the datagram at place P was left out, and why
Once the object is there, prints two lines and reads no further:
  complete after D datagrams     so many were read
  object L bytes                 the object was written, L bytes
At the session's end, prints one of these lines:
  missing block B have H need K  block B is the first that is short: H of K symbols came
  empty                          no datagram with the FTI was taken
Blocks and places count from 0. SESSION may be a pipe.
Datagrams of another TSI or TOI are passed over.
Statuses: 0 the object is written, 1 a fault, 2 the command line is refused, 3 `missing` or `empty`.

Example: alcrs follow bulletin.session received.txt --tsi 7 --toi 1
Example: cat bulletin.session | alcrs follow /dev/stdin received.txt --tsi 7 --toi 1";

pub(crate) const TWIN: &str = "Prints one of these lines:
  twin block B have H need K  the other object was written: block B has H of K symbols
  no twin                     check says yes
  no REASON                   `alcrs check` says no for another reason
Blocks and places count from 0. Places are those of the whole session.
Datagrams of another TSI or TOI are passed over.
Statuses: 0 a twin was written, 1 none was, 2 the command line is refused.

Example: alcrs twin thin.session note.txt note.rsc twin.txt --tsi 7 --toi 2";

pub(crate) const SHOW: &str = "Prints one of these lines for each datagram:
  P tsi T toi U length L symbol E block B max M sbn S esi J  it has the FTI
  P tsi T toi U no fti symbol E sbn S esi J                  it hasn't
  P REASON                                                   it is no packet
P is its place. L is the object's length in bytes, E the symbol's.
B is the most source symbols of a block, M the most encoding symbols.
S is the block's number, J the symbol's in the block. Places, blocks and symbols count from 0.
With --summary it prints these lines instead, the first three for each TSI T and TOI U:
  tsi T toi U datagrams D first P last P carriers C symbols N repeats R  D packets, places P to P
  tsi T toi U length L symbol E block B max M carriers C                 C have this FTI
  tsi T toi U weakest block S need K have H                              the least beyond its need
  no packet REASON datagrams D                                           D are no packets, for this
In the first line C have an FTI, N symbols differ, and R packets repeat one of them.
The second comes for each FTI. By the FTI that came first, block S needs K symbols and has H:
no other has fewer beyond its need.
Statuses: 0 all are packets, 1 some are not, or a fault, 2 the command line is refused.

Example: alcrs show bulletin.session";
