//! What the refusals of records and types mean.

// The limits stand in these texts as people read them, since a constant text cannot be made from numbers.
pub const LENGTH: &str = "\
1: this is not the length of the record

A record begins with 2 bytes, the higher first, that count the bytes behind them. They are missing, or
the count is not right. The place is 0.

    001501010a09010000005004000001000000010100000000
    ^^^^ refused at 0: 0015 announces 21 bytes, and 22 follow
";

pub const VERSION: &str = "\
2: this is not the version

Byte 2 of a record is its version, 01. It is missing, or another. The place is 2.

    001602010a09010000005004000001000000010100000000
        ^^ refused at 2
";

pub const READINGS: &str = "\
3: this is no count of readings

Byte 3 of a record counts the readings of the rule, 00 to 08. It is missing, or more. The place is 3.

    001601090a09010000005004000001000000010100000000
          ^^ refused at 3
";

pub const NO_NODE: &str = "\
4: a node is missing

The record ends where the tree has to go on: a node comes before its children, and here a child has no
byte. The place is the record's length.

    00080100080100000001
                        refused at 10: the sum, 08, has no second operand
";

pub const TOO_MANY_NODES: &str = "\
5: the rule has too many nodes

A rule has at most 512 nodes, and this record has a further one. The place is its kind byte.
";

pub const UNKNOWN_KIND: &str = "\
6: this is no kind of node

A node begins with its kind: 01 number, 02 false, 03 true, 04 variable, 05 function, 06 application,
07 let, 08 sum, 09 at most, 0a if. The place is the kind byte.

    000301000b
            ^^ refused at 4
";

pub const CUT_SHORT: &str = "\
7: a node is cut short

A number has 4 bytes behind its kind, and a variable 2, its distance. They are not all there. The place
is the record's length.

    000501000100ff
                  refused at 7: 2 of the number's 4 bytes are missing
";

pub const UNBOUND: &str = "\
8: a variable stands for nothing

The distance of a variable counts the binders between it and its own; beyond all binders it means a
reading. It has to be below the count of binders and readings around the variable. The place is the
variable's kind byte.

    0006010105040002
              ^^ refused at 5: distance 2, and 1 function and 1 reading around it
";

pub const SPARE: &str = "\
9: the record goes on behind its tree

All nodes of the tree are there, and bytes are left. The place is the first of them.

    000401000203
              ^^ refused at 5: the tree is the truth false, 02
";

pub const SHORT_TABLE: &str = "\
10: a work table is too short

Who accepts a record lends two tables of 16-bit entries. A rule of n nodes needs 3 n + 2 entries of
each, 1538 at most. The place is 0. Only the library refuses so: this program lends enough.
";

pub const NO_TYPE: &str = "\
11: the types no longer go together here

Every part of a rule has one type: int, bool, or an arrow from what a function takes to what it answers.
The parts are asked in the order of their nodes, each before its own parts. At this one the types asked
for can no longer all be had, whatever the rest is; up to the one before they could. So it is where the
types disagree, and the other side of the disagreement stands somewhere before it. The place is the
node's number, counted from 0.

    1 + true
        ^^^^ refused at node 2: a truth is a bool, but + adds two ints
    if true then 1 else false
                        ^^^^^ refused at node 3: both branches have one type, and 1 is an int
    fun f -> f f
               ^ refused at node 3: a function cannot take itself
";

pub const SHORT_BUFFER: &str = "\
12: the type is too long to write down

The rule has a type, but its spelling has more entries than there is room for: one for each int, bool,
unknown and arrow. This program has room for 65536. The type of a rule can have more than 2^70 entries,
which no memory holds. The place is 0.
";
