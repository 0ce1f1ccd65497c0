//! Texts as a person would type them, each under a label.

/// A label, and the text under it.
pub(crate) type Labelled = (&'static str, &'static [u8]);

/// The worked tables, and the limits of a gap and of the common period.
pub(crate) const FIGURES: &[Labelled] = &[
    (
        "cutter",
        b"(table 3)\n(task head (run 8) (due 16) (gap 16))\n(task lens (run 12) (due 28) (gap 28))\n(task fan (run 1) (due 56) (gap 56))\n",
    ),
    (
        "due before gap",
        b"(table 3)\n(task a (run 1) (due 4) (gap 5))\n(task b (run 1) (due 4) (gap 6))\n(task c (run 1) (due 7) (gap 10))\n",
    ),
    (
        "no sleep left",
        b"(table 2)\n(task a (run 2) (due 2) (gap 4))\n(task b (run 2) (due 4) (gap 4))\n",
    ),
    (
        "a window without room",
        b"(table 2)\n(task a (run 2) (due 2) (gap 4))\n(task b (run 2) (due 3) (gap 4))\n",
    ),
    (
        "too much load",
        b"(table 2)\n(task a (run 1) (due 1) (gap 1))\n(task b (run 1) (due 2) (gap 2))\n",
    ),
    (
        "gap 100000",
        b"(table 1)\n(task a (run 1) (due 1) (gap 100000))\n",
    ),
    (
        "gap 100001",
        b"(table 1)\n(task a (run 1) (due 1) (gap 100001))\n",
    ),
    (
        "gaps 64 and 15625",
        b"(table 2)\n(task a (run 1) (due 64) (gap 64))\n(task b (run 1) (due 15625) (gap 15625))\n",
    ),
    (
        "gaps 1000 and 1001",
        b"(table 2)\n(task a (run 1) (due 1000) (gap 1000))\n(task b (run 1) (due 1001) (gap 1001))\n",
    ),
];

/// The checks of rows, and which of two comes first.
pub(crate) const ROWS: &[Labelled] = &[
    (
        "run above due",
        b"(table 1)\n(task a (run 3) (due 2) (gap 4))\n",
    ),
    (
        "due above gap",
        b"(table 1)\n(task a (run 3) (due 5) (gap 4))\n",
    ),
    (
        "run above due above gap",
        b"(table 1)\n(task a (run 6) (due 5) (gap 4))\n",
    ),
    (
        "due above gap above limit",
        b"(table 1)\n(task a (run 1) (due 200002) (gap 200001))\n",
    ),
    (
        "name taken",
        b"(table 2)\n(task a (run 1) (due 4) (gap 4))\n(task a (run 1) (due 4) (gap 4))\n",
    ),
    (
        "name that goes on",
        b"(table 2)\n(task a (run 1) (due 4) (gap 4))\n(task ab (run 1) (due 4) (gap 4))\n",
    ),
    (
        "name taken before common",
        b"(table 2)\n(task a (run 1) (due 4) (gap 1000))\n(task a (run 1) (due 4) (gap 1001))\n",
    ),
    (
        "form of a row before another's common",
        b"(table 3)\n(task a (run 1) (due 4) (gap 1000))\n(task b (run 1) (due 4) (gap 1001))\n(task c\n",
    ),
];

/// Lines that have not their form.
pub(crate) const FORMS: &[Labelled] = &[
    ("no bracket", b"table 1\n"),
    (
        "another keyword",
        b"(tables 1)\n(task a (run 1) (due 4) (gap 4))\n",
    ),
    ("a shorter keyword", b"(tab 1)\n"),
    ("upper case keyword", b"(Table 1)\n"),
    ("count 0", b"(table 0)\n"),
    ("count 65", b"(table 65)\n"),
    ("count of 7 digits", b"(table 1000000)\n"),
    ("count of 8 digits", b"(table 10000000)\n"),
    (
        "upper case name",
        b"(table 1)\n(task Fan (run 1) (due 4) (gap 4))\n",
    ),
    (
        "a name that begins with a digit",
        b"(table 1)\n(task 2fan (run 1) (due 4) (gap 4))\n",
    ),
    (
        "a name of 12",
        b"(table 1)\n(task abcdefghij12 (run 1) (due 4) (gap 4))\n",
    ),
    (
        "a name of 13",
        b"(table 1)\n(task abcdefghij123 (run 1) (due 4) (gap 4))\n",
    ),
    (
        "a number that begins with 0",
        b"(table 1)\n(task a (run 01) (due 4) (gap 4))\n",
    ),
    (
        "a number of 7 digits",
        b"(table 1)\n(task a (run 1234567) (due 1234567) (gap 1234567))\n",
    ),
    (
        "a number of 8 digits",
        b"(table 1)\n(task a (run 12345678) (due 4) (gap 4))\n",
    ),
];

/// Spaces, line ends and the end of the text.
pub(crate) const EDGES: &[Labelled] = &[
    ("empty", b""),
    (
        "two spaces",
        b"(table 1)\n(task  a (run 1) (due 4) (gap 4))\n",
    ),
    ("a tab", b"(table 1)\n(task a\t(run 1) (due 4) (gap 4))\n"),
    (
        "a carriage return",
        b"(table 1)\r\n(task a (run 1) (due 4) (gap 4))\r\n",
    ),
    (
        "no final line end",
        b"(table 1)\n(task a (run 1) (due 4) (gap 4))",
    ),
    ("stops in a keyword", b"(table 1)\n(ta"),
    ("stops in a number", b"(table 1)\n(task a (run 1"),
    (
        "more rows than the count",
        b"(table 1)\n(task a (run 1) (due 4) (gap 4))\n(task b (run 1) (due 4) (gap 4))\n",
    ),
    (
        "fewer rows than the count",
        b"(table 2)\n(task a (run 1) (due 4) (gap 4))\n",
    ),
    (
        "an empty line after",
        b"(table 1)\n(task a (run 1) (due 4) (gap 4))\n\n",
    ),
];
