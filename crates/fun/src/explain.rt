//! What the refusals mean, for those who look a number up.
use crate::accept_explained;

/// The numbers that can be explained, in words.
pub const KNOWN: &str = "1 to 12, 20 to 22, 31 to 33, 51 to 55 and 57 to 59";

/// What each refusal means, its number first.
// The limits stand in these texts as people read them, since a constant text cannot be made from numbers.
const EXPLANATIONS: [&str; 26] = [
    accept_explained::LENGTH,
    accept_explained::VERSION,
    accept_explained::READINGS,
    accept_explained::NO_NODE,
    accept_explained::TOO_MANY_NODES,
    accept_explained::UNKNOWN_KIND,
    accept_explained::CUT_SHORT,
    accept_explained::UNBOUND,
    accept_explained::SPARE,
    accept_explained::SHORT_TABLE,
    accept_explained::NO_TYPE,
    accept_explained::SHORT_BUFFER,
    WRONG_COUNT,
    NOT_WAITING,
    WRONG_STEPS,
    NO_LIST,
    NO_FREE_ROOM,
    NO_ELEMENT,
    TOO_LONG,
    NO_TOKEN,
    NO_NAME,
    OUT_OF_RANGE,
    UNEXPECTED,
    UNKNOWN,
    TOO_MANY_NODES,
    NO_ROOM,
];

/// What a refusal means, with an example; nothing where there is no such refusal.
pub(crate) fn explanation(number: &str) -> Option<&'static str> {
    EXPLANATIONS.iter().copied().find(|text| text
        .split_once(": ")
        .is_some_and(|(known, _)| known == number))
}

const WRONG_COUNT: &str = "\
20: these are not as many readings as the rule has

A run begins anew with a number for each reading of its rule. The run is as it was. The place is 0.
Only the library refuses so: this program takes the names of the readings from their values.
";

const NOT_WAITING: &str = "\
21: the run does not wait for steps

Steps are granted while a step is next. The rule is worked out, a sum leaves the number range, or the
run is short of room or of stack: then nothing is granted, and the run is as it was. The place is 0.

    fun run --slots 2,2 defrost.fun coil=80
    slot 2 is refused: the rule took 2 steps
";

const WRONG_STEPS: &str = "\
22: so many steps cannot be granted

From its beginning on, a run may be granted 1 step or more at a time, and 1000000000 in all. Nothing is
granted, and the run is as it was. The place is 0.
";

const NO_LIST: &str = "\
31: the handle has no list

An environment store was asked to extend or to look at a handle that it did not answer since it
was last cleared. Only handle 0 always has a list.
";

const NO_FREE_ROOM: &str = "\
32: the store has too little free room

An extension costs more than the store has free. The linked store pays 1 cell for each extension;
the flat store pays 2 slots more than the list had elements. Clearing gives all room back.
";

const NO_ELEMENT: &str = "\
33: the list has no element at this index

Elements are counted from 0, the newest first, so a list of 2 elements has the indices 0 and 1.
";

const TOO_LONG: &str = "\
51: the text is too long

A text has at most 4096 bytes, blanks and line ends included. The place is 0.
Shorten names, drop blanks, or say a repeated part once:

    let warm = coil + 5 in if 80 <= warm then warm else 0
";

const NO_TOKEN: &str = "\
52: no token begins here

A text consists of names, numbers, the eight keywords (fun let in if then else true false) and the
signs ( ) + <= = ->, with spaces, tabs and line ends between them. A minus stands only directly
before a digit or in ->, and < only in <=. The place is the first byte that begins no token.

    coil - 5
         ^ refused at 5: write coil + -5
";

const NO_NAME: &str = "\
53: the name cannot name a reading

A reading's name is a letter followed by letters, digits and underscores, at most 32 bytes, and no
keyword. Each name is given once, and there are at most 8. The place is 0.

    fun compile defrost.fun coil fan-speed
                                 ^^^^^^^^^ refused: write fan_speed
";

const OUT_OF_RANGE: &str = "\
54: the number is out of range

Numbers run from -2147483648 to 2147483647. Leading zeros are fine, and -0 is 0. The place is the
number's first byte, that of its minus where it has one.

    coil + 3000000000
           ^^^^^^^^^^ refused at 7
";

const UNEXPECTED: &str = "\
55: no sentence goes on with this token

The tokens up to this one begin no sentence of the grammar. The end of the text counts as a token.

    expr:  fun name -> expr
           let name = expr in expr
           if expr then expr else expr
           cmp
    cmp:   sum  |  sum <= sum
    sum:   app  |  sum + app
    app:   atom  |  app atom
    atom:  number  |  true  |  false  |  name  |  ( expr )

    1 + fun x -> x
        ^^^ refused at 4: write 1 + (fun x -> x) 2
    a <= b <= c
           ^^ refused at 7: write a <= b, or put one comparison in parentheses
";

const UNKNOWN: &str = "\
57: this name is not in force

A name is in force if a fun or a let around it opens it, or if it names a reading. A fun opens its
name in its body, a let behind its in, and not in what it binds.

    (fun x -> x + 1) x
                     ^ refused at 17: the body of fun has ended
    let n = n + 1 in n
            ^ refused at 8: n opens behind in
";

const TOO_MANY_NODES: &str = "\
58: the rule has too many nodes

A rule has at most 512 nodes: one for each number, truth and name in use, for each +, <=, fun, let
and if, and for each argument. It is asked once the whole text was read. The place is 0.
";

const NO_ROOM: &str = "\
59: the record does not fit

The record has more bytes than there is room for. It takes 4 bytes, 5 for each number, 3 for each
name in use, and 1 for each other node. The place is 0.

    fun compile --room 23 defrost.fun coil
    refused: the record of `if 80 <= coil then 1 else 0` has 24 bytes
";
