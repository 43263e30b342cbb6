//! Schedules of sessions, and what the program writes of them: worked out by hand from the rules,
//! line by line.

use crate::schedules::all_are_told;

// A client begins late, and takes an image; a message that comes before it waits.
const LATE_JOIN: (&[u8], &str) = (
    b"1 time 34200\n\
    1 add 1 B 100 IBM 10.00\n\
    1 add 2 S 50 IBM 10.05\n\
    1 exec 1 30 9001\n\
    1 flush\n\
    1 advertise\n\
    1 spin open\n\
    1 spin up all\n\
    1 spin down all\n\
    1 add 3 B 10 IBM 10.01\n\
    1 flush\n\
    1 a 2\n\
    1 tick\n\
    1 spin up all\n\
    1 spin down all\n\
    1 show\n",
    "1 1 accepted 1; silent\n\
    2 1 accepted 2; silent\n\
    3 1 accepted 3; silent\n\
    4 1 accepted 4; silent\n\
    5 1 sent 1; silent\n\
    6 1 advertised 4; silent\n\
    7 1 opened; silent\n\
    8 1 carried 30; silent\n\
    9 1 carried 25; behind 0 of 4\n\
    10 1 accepted 5; behind 0 of 4\n\
    11 1 sent 1; behind 0 of 4\n\
    12 1 heard 1; behind 0 of 5\n\
    13 1 asked spin 4; behind 0 of 5\n\
    14 1 carried 14; behind 0 of 5\n\
    15 1 carried 99; current 5\n\
    16 1 shown; current 5\n\
    book unit 1 at 5 second 34200 orders 3\n\
    order 1 B 70 IBM 10.0000\n\
    order 2 S 50 IBM 10.0500\n\
    order 3 B 10 IBM 10.0100\n\
    lines a 1/1 b 0/0 g 0/0\n",
);

// Messages of a session are cut, both ways; heartbeats stand before a request; a reply is cut
// short.
const CUT_IN_A_MESSAGE: (&[u8], &str) = (
    b"1 add 1 B 10 IBM 10.00\n\
    1 add 2 B 10 IBM 10.01\n\
    1 flush\n\
    1 add 3 S 5 IBM 10.05\n\
    1 flush\n\
    1 a 2\n\
    1 grp open\n\
    1 grp up 29\n\
    1 grp down all\n\
    1 grp up 2\n\
    1 grp up all\n\
    1 grp down 10\n\
    1 tick\n\
    1 grp down all\n\
    1 tick\n\
    1 tick\n\
    1 grp up 20\n\
    1 grp up all\n\
    1 grp down 33\n\
    1 grp cut\n\
    1 grp down all\n\
    1 g rest\n\
    1 g rest\n\
    1 show\n",
    "1 1 accepted 1; silent\n\
    2 1 accepted 2; silent\n\
    3 1 sent 1; silent\n\
    4 1 accepted 3; silent\n\
    5 1 sent 1; silent\n\
    6 1 heard 1; behind 0 of 3\n\
    7 1 opened; behind 0 of 3\n\
    8 1 carried 29; behind 0 of 3\n\
    9 1 carried 0; behind 0 of 3\n\
    10 1 too-few 2 1; behind 0 of 3\n\
    11 1 carried 1; behind 0 of 3\n\
    12 1 carried 10; behind 0 of 3\n\
    13 1 ticked; behind 0 of 3\n\
    14 1 carried 1; behind 0 of 3\n\
    15 1 asked gap 1 2; behind 0 of 3\n\
    16 1 ticked; behind 0 of 3\n\
    17 1 carried 20; behind 0 of 3\n\
    18 1 carried 5; behind 0 of 3\n\
    19 1 carried 33; behind 0 of 3\n\
    20 1 cut; behind 0 of 3\n\
    21 1 not-open; behind 0 of 3\n\
    22 1 heard 1; current 3\n\
    23 1 heard 0; current 3\n\
    24 1 shown; current 3\n\
    book unit 1 at 3 second - orders 3\n\
    order 1 B 10 IBM 10.0000\n\
    order 2 B 10 IBM 10.0100\n\
    order 3 S 5 IBM 10.0500\n\
    lines a 1/1 b 0/0 g 2/2\n",
);

// Both ends are up: the gap is asked for first, and the image once the proxy has refused.
const BOTH_ENDS_UP: (&[u8], &str) = (
    b"2 open hold=8 kept=2\n\
    2 add 1 B 10 IBM 1\n\
    2 flush\n\
    2 add 2 B 10 IBM 1\n\
    2 flush\n\
    2 add 3 B 10 IBM 1\n\
    2 flush\n\
    2 add 4 B 10 IBM 1\n\
    2 flush\n\
    2 add 5 B 10 IBM 1\n\
    2 flush\n\
    2 grp open\n\
    2 spin open\n\
    2 grp up all\n\
    2 spin up all\n\
    2 advertise\n\
    2 grp down all\n\
    2 spin down all\n\
    2 a 5\n\
    2 tick\n\
    2 grp up all\n\
    2 g 1\n\
    2 grp down all\n\
    2 tick\n\
    2 spin up all\n\
    2 spin down all\n\
    2 tick\n\
    2 show\n",
    "1 2 opened; silent\n\
    2 2 accepted 1; silent\n\
    3 2 sent 1; silent\n\
    4 2 accepted 2; silent\n\
    5 2 sent 1; silent\n\
    6 2 accepted 3; silent\n\
    7 2 sent 1; silent\n\
    8 2 accepted 4; silent\n\
    9 2 sent 1; silent\n\
    10 2 accepted 5; silent\n\
    11 2 sent 1; silent\n\
    12 2 opened; silent\n\
    13 2 opened; silent\n\
    14 2 carried 30; silent\n\
    15 2 carried 30; silent\n\
    16 2 advertised 5; silent\n\
    17 2 carried 11; silent\n\
    18 2 carried 25; behind 0 of 5\n\
    19 2 heard 1; behind 0 of 5\n\
    20 2 asked gap 1 4; behind 0 of 5\n\
    21 2 carried 17; behind 0 of 5\n\
    22 2 no-datagram; behind 0 of 5\n\
    23 2 carried 18; behind 0 of 5\n\
    24 2 asked spin 5; behind 0 of 5\n\
    25 2 carried 22; behind 0 of 5\n\
    26 2 carried 179; current 5\n\
    27 2 ticked; current 5\n\
    28 2 shown; current 5\n\
    book unit 2 at 5 second - orders 5\n\
    order 1 B 10 IBM 1.0000\n\
    order 2 B 10 IBM 1.0000\n\
    order 3 B 10 IBM 1.0000\n\
    order 4 B 10 IBM 1.0000\n\
    order 5 B 10 IBM 1.0000\n\
    lines a 1/1 b 0/0 g 0/0\n",
);

// The hold overflows while an image comes in pieces.
const OVERFLOW_INSIDE_AN_IMAGE: (&[u8], &str) = (
    b"1 open hold=2\n\
    1 add 1 B 10 IBM 10.00\n\
    1 flush\n\
    1 add 2 B 10 IBM 10.00\n\
    1 flush\n\
    1 add 3 B 10 IBM 10.00\n\
    1 flush\n\
    1 add 4 B 10 IBM 10.00\n\
    1 flush\n\
    1 spin open\n\
    1 advertise\n\
    1 spin up all\n\
    1 spin down all\n\
    1 tick\n\
    1 spin up all\n\
    1 add 5 B 10 IBM 10.00\n\
    1 flush\n\
    1 add 6 B 10 IBM 10.00\n\
    1 flush\n\
    1 add 7 B 10 IBM 10.00\n\
    1 flush\n\
    1 spin down 19\n\
    1 spin down 111\n\
    1 a 3\n\
    1 a 5\n\
    1 b 7\n\
    1 b 5\n\
    1 spin down 15\n\
    1 a rest\n\
    1 show\n",
    "1 1 opened; silent\n\
    2 1 accepted 1; silent\n\
    3 1 sent 1; silent\n\
    4 1 accepted 2; silent\n\
    5 1 sent 1; silent\n\
    6 1 accepted 3; silent\n\
    7 1 sent 1; silent\n\
    8 1 accepted 4; silent\n\
    9 1 sent 1; silent\n\
    10 1 opened; silent\n\
    11 1 advertised 4; silent\n\
    12 1 carried 30; silent\n\
    13 1 carried 25; behind 0 of 4\n\
    14 1 asked spin 4; behind 0 of 4\n\
    15 1 carried 14; behind 0 of 4\n\
    16 1 accepted 5; behind 0 of 4\n\
    17 1 sent 1; behind 0 of 4\n\
    18 1 accepted 6; behind 0 of 4\n\
    19 1 sent 1; behind 0 of 4\n\
    20 1 accepted 7; behind 0 of 4\n\
    21 1 sent 1; behind 0 of 4\n\
    22 1 carried 19; behind 0 of 4\n\
    23 1 carried 111; behind 0 of 4\n\
    24 1 heard 1; behind 0 of 4\n\
    25 1 heard 1; behind 0 of 5\n\
    26 1 heard 1 overflow; behind 0 of 7\n\
    27 1 heard 1; behind 0 of 7\n\
    28 1 carried 15; behind 5 of 7\n\
    29 1 heard 2; current 7\n\
    30 1 shown; current 7\n\
    book unit 1 at 7 second - orders 7\n\
    order 1 B 10 IBM 10.0000\n\
    order 2 B 10 IBM 10.0000\n\
    order 3 B 10 IBM 10.0000\n\
    order 4 B 10 IBM 10.0000\n\
    order 5 B 10 IBM 10.0000\n\
    order 6 B 10 IBM 10.0000\n\
    order 7 B 10 IBM 10.0000\n\
    lines a 3/4 b 2/2 g 0/0\n",
);

// A range at the edge of what the proxy keeps; the rest of a line, and heartbeats on it.
const EDGE_OF_KEPT: (&[u8], &str) = (
    b"3 open hold=4 kept=3\n\
    3 add 1 S 1 A 2\n\
    3 flush\n\
    3 add 2 S 1 A 2\n\
    3 flush\n\
    3 add 3 S 1 A 2\n\
    3 flush\n\
    3 add 4 S 1 A 2\n\
    3 flush\n\
    3 add 5 S 1 A 2\n\
    3 flush\n\
    3 a 1\n\
    3 a 2\n\
    3 a 5\n\
    3 grp open\n\
    3 grp up all\n\
    3 grp down all\n\
    3 tick\n\
    3 grp up 16\n\
    3 add 6 S 1 A 2\n\
    3 grp up all\n\
    3 g 1\n\
    3 grp down all\n\
    3 a 3\n\
    3 tick\n\
    3 grp up all\n\
    3 g 1\n\
    3 grp down all\n\
    3 tick\n\
    3 beat\n\
    3 a rest\n\
    3 flush\n\
    3 beat\n\
    3 b 8\n\
    3 b rest\n\
    3 a 7\n",
    "1 3 opened; silent\n\
    2 3 accepted 1; silent\n\
    3 3 sent 1; silent\n\
    4 3 accepted 2; silent\n\
    5 3 sent 1; silent\n\
    6 3 accepted 3; silent\n\
    7 3 sent 1; silent\n\
    8 3 accepted 4; silent\n\
    9 3 sent 1; silent\n\
    10 3 accepted 5; silent\n\
    11 3 sent 1; silent\n\
    12 3 heard 1; current 1\n\
    13 3 heard 1; current 2\n\
    14 3 heard 1; behind 2 of 5\n\
    15 3 opened; behind 2 of 5\n\
    16 3 carried 30; behind 2 of 5\n\
    17 3 carried 11; behind 2 of 5\n\
    18 3 asked gap 3 2; behind 2 of 5\n\
    19 3 carried 16; behind 2 of 5\n\
    20 3 accepted 6; behind 2 of 5\n\
    21 3 carried 1; behind 2 of 5\n\
    22 3 no-datagram; behind 2 of 5\n\
    23 3 carried 18; behind 2 of 5\n\
    24 3 heard 1; behind 3 of 5\n\
    25 3 asked gap 4 1; behind 3 of 5\n\
    26 3 carried 17; behind 3 of 5\n\
    27 3 heard 1; current 5\n\
    28 3 carried 18; current 5\n\
    29 3 ticked; current 5\n\
    30 3 sent 1; current 5\n\
    31 3 heard 1; current 5\n\
    32 3 sent 1; current 5\n\
    33 3 sent 1; current 5\n\
    34 3 heard 1; behind 5 of 6\n\
    35 3 heard 0; behind 5 of 6\n\
    36 3 heard 1; current 6\n",
);

// The end of a session has a sequence, and nothing is accepted after it.
const END_OF_SESSION: (&[u8], &str) = (
    b"5 time 34200\n\
    5 add 9 B 3 ZZ 1.5 hidden mpid=AB\n\
    5 end\n\
    5 end\n\
    5 add 9 B 0 ZZ 1\n\
    5 time 5\n\
    5 beat\n\
    5 flush\n\
    5 flush\n\
    5 beat\n\
    5 a 1\n\
    5 a 3\n\
    5 quote ZZ\n\
    5 a 2\n\
    5 quote ZZ\n\
    5 advertise\n\
    5 show\n\
    5 open hold=1\n",
    "1 5 accepted 1; silent\n\
    2 5 accepted 2; silent\n\
    3 5 accepted 3; silent\n\
    4 5 refused ended; silent\n\
    5 5 refused ended; silent\n\
    6 5 refused ended; silent\n\
    7 5 sent 1; silent\n\
    8 5 sent 1; silent\n\
    9 5 sent 0; silent\n\
    10 5 sent 1; silent\n\
    11 5 heard 1; current 0\n\
    12 5 heard 1; behind 0 of 3\n\
    13 5 quote ZZ - - - -; behind 0 of 3\n\
    14 5 heard 1; current 3\n\
    15 5 quote ZZ 1.5000 3 - -; current 3\n\
    16 5 advertised 3; current 3\n\
    17 5 shown; current 3\n\
    book unit 5 at 3 second 34200 orders 1\n\
    order 9 B 3 ZZ 1.5000 hidden mpid=AB\n\
    lines a 3/3 b 0/0 g 0/0\n\
    18 5 already-open; current 3\n",
);

// Heartbeats wait, and the fifth silent tick cuts the link before the client ticks.
const SILENCE: (&[u8], &str) = (
    b"1 add 1 B 1 A 1\n\
    1 add 2 B 1 A 1\n\
    1 flush\n\
    1 add 3 B 1 A 1\n\
    1 flush\n\
    1 grp open\n\
    1 grp up all\n\
    1 grp down all\n\
    1 tick\n\
    1 tick\n\
    1 tick\n\
    1 a 2\n\
    1 tick\n\
    1 tick\n\
    1 grp up 50\n\
    1 grp down 33\n\
    1 tick\n\
    1 grp up all\n\
    1 grp open\n\
    1 grp up 0\n\
    1 tick\n\
    1 grp down all\n\
    1 grp up all\n\
    1 tick\n\
    1 grp down all\n\
    1 tick\n\
    1 grp up all\n\
    1 g rest\n",
    "1 1 accepted 1; silent\n\
    2 1 accepted 2; silent\n\
    3 1 sent 1; silent\n\
    4 1 accepted 3; silent\n\
    5 1 sent 1; silent\n\
    6 1 opened; silent\n\
    7 1 carried 30; silent\n\
    8 1 carried 11; silent\n\
    9 1 ticked; silent\n\
    10 1 ticked; silent\n\
    11 1 ticked; silent\n\
    12 1 heard 1; behind 0 of 3\n\
    13 1 asked gap 1 2; behind 0 of 3\n\
    14 1 ticked; behind 0 of 3\n\
    15 1 too-few 50 41; behind 0 of 3\n\
    16 1 too-few 33 32; behind 0 of 3\n\
    17 1 ticked; behind 0 of 3\n\
    18 1 not-open; behind 0 of 3\n\
    19 1 opened; behind 0 of 3\n\
    20 1 carried 0; behind 0 of 3\n\
    21 1 ticked; behind 0 of 3\n\
    22 1 carried 8; behind 0 of 3\n\
    23 1 carried 30; behind 0 of 3\n\
    24 1 ticked; behind 0 of 3\n\
    25 1 carried 11; behind 0 of 3\n\
    26 1 asked gap 1 2; behind 0 of 3\n\
    27 1 carried 33; behind 0 of 3\n\
    28 1 heard 1; current 3\n",
);

// Eleven images are advertised after one of nothing, and the last ten are served.
const LAST_TEN: (&[u8], &str) = (
    b"9 spin open\n\
    9 spin up all\n\
    9 spin down all\n\
    9 advertise\n\
    9 advertise\n\
    9 spin down all\n\
    9 tick\n\
    9 add 1 B 1 A 1\n\
    9 advertise\n\
    9 add 2 B 1 A 1\n\
    9 advertise\n\
    9 add 3 B 1 A 1\n\
    9 advertise\n\
    9 add 4 B 1 A 1\n\
    9 advertise\n\
    9 add 5 B 1 A 1\n\
    9 advertise\n\
    9 add 6 B 1 A 1\n\
    9 advertise\n\
    9 add 7 B 1 A 1\n\
    9 advertise\n\
    9 add 8 B 1 A 1\n\
    9 advertise\n\
    9 add 9 B 1 A 1\n\
    9 advertise\n\
    9 add 10 B 1 A 1\n\
    9 advertise\n\
    9 add 11 B 1 A 1\n\
    9 advertise\n\
    9 spin down 14\n\
    9 tick\n\
    9 spin up all\n\
    9 spin down 140\n\
    9 spin down all\n\
    9 tick\n\
    9 spin up all\n\
    9 spin down all\n\
    9 quote A\n",
    "1 9 opened; silent\n\
    2 9 carried 30; silent\n\
    3 9 carried 11; silent\n\
    4 9 advertised 0; silent\n\
    5 9 advertised 0; silent\n\
    6 9 carried 28; current 0\n\
    7 9 ticked; current 0\n\
    8 9 accepted 1; current 0\n\
    9 9 advertised 1; current 0\n\
    10 9 accepted 2; current 0\n\
    11 9 advertised 2; current 0\n\
    12 9 accepted 3; current 0\n\
    13 9 advertised 3; current 0\n\
    14 9 accepted 4; current 0\n\
    15 9 advertised 4; current 0\n\
    16 9 accepted 5; current 0\n\
    17 9 advertised 5; current 0\n\
    18 9 accepted 6; current 0\n\
    19 9 advertised 6; current 0\n\
    20 9 accepted 7; current 0\n\
    21 9 advertised 7; current 0\n\
    22 9 accepted 8; current 0\n\
    23 9 advertised 8; current 0\n\
    24 9 accepted 9; current 0\n\
    25 9 advertised 9; current 0\n\
    26 9 accepted 10; current 0\n\
    27 9 advertised 10; current 0\n\
    28 9 accepted 11; current 0\n\
    29 9 advertised 11; current 0\n\
    30 9 carried 14; behind 0 of 1\n\
    31 9 asked spin 1; behind 0 of 1\n\
    32 9 carried 22; behind 0 of 1\n\
    33 9 carried 140; behind 0 of 11\n\
    34 9 carried 19; behind 0 of 11\n\
    35 9 asked spin 11; behind 0 of 11\n\
    36 9 carried 14; behind 0 of 11\n\
    37 9 carried 327; current 11\n\
    38 9 quote A 1.0000 11 - -; current 11\n",
);

// Two units, one of which begins without its limits.
const TWO_UNITS: (&[u8], &str) = (
    b"64 add 7 B 1 Q 0.0001\n\
    1 open hold=1\n\
    64 open hold=1\n\
    64 flush\n\
    1 a 1\n\
    64 b rest\n\
    1 beat\n\
    1 b 1\n\
    1 grp cut\n\
    1 spin down 5\n\
    1 add 1 B 65536 ABCDEFG 655.36\n\
    1 execat 1 65536 5 1 1\n\
    1 reduce 1 6\n\
    1 modify 1 0 1\n\
    1 flush\n\
    1 a rest\n\
    1 quote ABCDEFG\n\
    64 show\n",
    "1 64 accepted 1; silent\n\
    2 1 opened; silent\n\
    3 64 already-open; silent\n\
    4 64 sent 1; silent\n\
    5 1 no-datagram; silent\n\
    6 64 heard 1; current 1\n\
    7 1 sent 1; silent\n\
    8 1 heard 1; current 0\n\
    9 1 not-open; current 0\n\
    10 1 not-open; current 0\n\
    11 1 accepted 1; current 0\n\
    12 1 accepted 2; current 0\n\
    13 1 refused too-much 6 5; current 0\n\
    14 1 refused zero-quantity; current 0\n\
    15 1 sent 1; current 0\n\
    16 1 heard 2; current 2\n\
    17 1 quote ABCDEFG 655.3600 5 - -; current 2\n\
    18 64 shown; current 1\n\
    book unit 64 at 1 second - orders 1\n\
    order 7 B 1 Q 0.0001\n\
    lines a 0/0 b 1/1 g 0/0\n",
);

// A server closes by silence while its link lives by heartbeats.
const CLOSED_SERVER: (&[u8], &str) = (
    b"1 add 1 B 1 A 1\n\
    1 flush\n\
    1 beat\n\
    1 grp open\n\
    1 grp up all\n\
    1 grp down all\n\
    1 tick\n\
    1 tick\n\
    1 grp down all\n\
    1 tick\n\
    1 grp down all\n\
    1 tick\n\
    1 grp down all\n\
    1 tick\n\
    1 grp down all\n\
    1 tick\n\
    1 grp down all\n\
    1 a 2\n\
    1 tick\n\
    1 grp up all\n\
    1 grp down all\n\
    1 g rest\n\
    1 tick\n",
    "1 1 accepted 1; silent\n\
    2 1 sent 1; silent\n\
    3 1 sent 1; silent\n\
    4 1 opened; silent\n\
    5 1 carried 30; silent\n\
    6 1 carried 11; silent\n\
    7 1 ticked; silent\n\
    8 1 ticked; silent\n\
    9 1 carried 8; silent\n\
    10 1 ticked; silent\n\
    11 1 carried 8; silent\n\
    12 1 ticked; silent\n\
    13 1 carried 8; silent\n\
    14 1 ticked; silent\n\
    15 1 carried 8; silent\n\
    16 1 ticked; silent\n\
    17 1 carried 0; silent\n\
    18 1 heard 1; behind 0 of 1\n\
    19 1 asked gap 1 1; behind 0 of 1\n\
    20 1 carried 65; behind 0 of 1\n\
    21 1 carried 0; behind 0 of 1\n\
    22 1 heard 0; behind 0 of 1\n\
    23 1 ticked; behind 0 of 1\n",
);

static SESSIONS: [(&[u8], &str); 10] = [
    LATE_JOIN,
    CUT_IN_A_MESSAGE,
    BOTH_ENDS_UP,
    OVERFLOW_INSIDE_AN_IMAGE,
    EDGE_OF_KEPT,
    END_OF_SESSION,
    SILENCE,
    LAST_TEN,
    TWO_UNITS,
    CLOSED_SERVER,
];

// By one worker and by several.
#[test]
fn each_schedule_of_sessions_has_its_text(rt: HostRuntime) {
    for line in ["replay", "replay --workers 3"] {
        all_are_told(&rt, rt.alloc(), line, 65536, &SESSIONS);
    }
}
