//! Bytes after the opening marks of places, and what is read from them.
use hesc_places::{End, Place};

/// Bytes that have a reading, its value, and its end.
pub type Read<'b> = (&'b [u8], &'b [u8], usize);

/// Bytes that have a reading in the place.
pub fn read_in(place: Place) -> &'static [Read<'static>] {
    match place {
        Place::Text => &READ_TEXT,
        Place::DoubleAttribute => &READ_DOUBLE_ATTRIBUTE,
        Place::SingleAttribute => &READ_SINGLE_ATTRIBUTE,
        Place::UnquotedAttribute(End::Tab) => &READ_UNQUOTED_TAB,
        Place::UnquotedAttribute(End::LineFeed) => &READ_UNQUOTED_LINE_FEED,
        Place::UnquotedAttribute(End::FormFeed) => &READ_UNQUOTED_FORM_FEED,
        Place::UnquotedAttribute(End::Space) => &READ_UNQUOTED_SPACE,
        Place::UnquotedAttribute(End::Greater) => &READ_UNQUOTED_GREATER,
        Place::ScriptSingle => &READ_SCRIPT_SINGLE,
        Place::ScriptDouble => &READ_SCRIPT_DOUBLE,
        Place::StyleSingle => &READ_STYLE_SINGLE,
        Place::StyleDouble => &READ_STYLE_DOUBLE,
        Place::ScriptBody => &READ_SCRIPT_BODY,
        Place::StyleBody => &READ_STYLE_BODY,
    }
}

/// Bytes that have none.
pub fn unread_in(place: Place) -> &'static [&'static [u8]] {
    match place {
        Place::Text => &UNREAD_TEXT,
        Place::DoubleAttribute => &UNREAD_DOUBLE_ATTRIBUTE,
        Place::SingleAttribute => &UNREAD_SINGLE_ATTRIBUTE,
        Place::UnquotedAttribute(End::Tab) => &UNREAD_UNQUOTED_TAB,
        Place::UnquotedAttribute(End::LineFeed) => &UNREAD_UNQUOTED_LINE_FEED,
        Place::UnquotedAttribute(End::FormFeed) => &UNREAD_UNQUOTED_FORM_FEED,
        Place::UnquotedAttribute(End::Space) => &UNREAD_UNQUOTED_SPACE,
        Place::UnquotedAttribute(End::Greater) => &UNREAD_UNQUOTED_GREATER,
        Place::ScriptSingle => &UNREAD_SCRIPT_SINGLE,
        Place::ScriptDouble => &UNREAD_SCRIPT_DOUBLE,
        Place::StyleSingle => &UNREAD_STYLE_SINGLE,
        Place::StyleDouble => &UNREAD_STYLE_DOUBLE,
        Place::ScriptBody => &UNREAD_SCRIPT_BODY,
        Place::StyleBody => &UNREAD_STYLE_BODY,
    }
}

static READ_TEXT: [Read<'static>; 5] = [
    (b"&#0;<", b"\xef\xbf\xbd", 4),
    (b"&#x41;\x0c\\u2028<script'\n\x00<", b"A\x0c\\u2028", 13),
    (
        b"\xe2\x80\xa8\xff<!--=</script\\n&#0;",
        b"\xe2\x80\xa8\xff",
        4,
    ),
    (b"\\n<script\\000026B\\\"&#0;\xe2\x80\xa8<", b"\\n", 2),
    (b"\\000026B>'\\\\x41\n<</style", b"\\000026B>'\\\\x41\n", 16),
];

static UNREAD_TEXT: [&[u8]; 7] = [
    b"a&copy;<",
    b"&#128;<",
    b"abc",
    b"&copy;\\3C \xff</style",
    b"\\x41'\x00\r &copy;-->",
    b"'\\n\\000026B&copy;\r/<",
    b"&#x41;\\n/&copy;<'\x0c<",
];

static READ_DOUBLE_ATTRIBUTE: [Read<'static>; 4] = [
    (
        b"-->&#0;\\x41'\\\\3C <script\"",
        b"-->\xef\xbf\xbd\\x41'\\\\3C <script",
        24,
    ),
    (b"\\u2028\\a</style&#x41;\"", b"\\u2028\\a</styleA", 21),
    (b"&#x41;-->=a</script`\"", b"A-->=a</script`", 20),
    (b" &quot;\\000026B\n'\\\"<!--", b" \"\\000026B\n'\\", 18),
];

static UNREAD_DOUBLE_ATTRIBUTE: [&[u8]; 4] = [
    b"\r</script\\&#x41;\xe2\x80\xa8&",
    b"<!--\x0c&copy;\"\\u2028a\"",
    b"\x0c \x0ca&copy;\\n</script",
    b"\\n<script\\u2028 `&\"",
];

static READ_SINGLE_ATTRIBUTE: [Read<'static>; 4] = [
    (b"amp;\\u2028&quot;=`\r'\\x41", b"amp;\\u2028\"=`\r", 19),
    (b"\\3C <!--'</script&copy;\x0c'", b"\\3C <!--", 8),
    (b"\x0c\n\n&quot;\r\\n'<script", b"\x0c\n\n\"\r\\n", 12),
    (b"&lt;&lt;&amp;#x41;'\\000026B", b"<<&#x41;", 18),
];

static UNREAD_SINGLE_ATTRIBUTE: [&[u8]; 4] = [
    b"\\3C \x0b<script\xff&#x41;\x0c",
    b"/\xe2\x80\xa8\\n<script\\u2028",
    b"\xe2\x80\xa8\t</script&copy;",
    b"<\x00\\3C &copy;=\x0b\t'",
];

static READ_UNQUOTED_TAB: [Read<'static>; 2] = [
    (b"\\u2028\t\r&copy;\r\\000026B\"", b"\\u2028", 6),
    (b"amp&#x3B;amp&#x3B;&lt;\t>", b"amp;amp;<", 22),
];

static UNREAD_UNQUOTED_TAB: [&[u8]; 2] = [
    b"\\u2028\n`\"</script>&\t",
    b"\xe2\x80\xa8&#0;/\\n<script\t",
];

static READ_UNQUOTED_LINE_FEED: [Read<'static>; 2] = [
    (b"&amp;&#x23;x41&#x3B;\n\\u2028", b"&#x41;", 20),
    (b"&#x41;\n<scriptamp;\n", b"A", 6),
];

static UNREAD_UNQUOTED_LINE_FEED: [&[u8]; 2] = [
    b"</style\xe2\x80\xa8=\\namp;\t&",
    b">`\\x41</style&copy;",
];

static READ_UNQUOTED_FORM_FEED: [Read<'static>; 2] = [
    (b"&amp;&#x23;0&#x3B;\x0c</style", b"&#0;", 18),
    (b"amp;\x0c</script\\x41\xff\\x41\xff\x0c", b"amp;", 4),
];

static UNREAD_UNQUOTED_FORM_FEED: [&[u8]; 2] = [
    b"/<script&\tamp;\r\\3C \x0c",
    b" >\\x41&copy;\xe2\x80\xa8/\"\x0c",
];

static READ_UNQUOTED_SPACE: [Read<'static>; 3] = [
    (b"&#x00; ", b"\xef\xbf\xbd", 6),
    (b"&#x5C;x41&#x0C;&lt; <script", b"\\x41\x0c<", 19),
    (b"\\\\000026B\r\\3C </style", b"\\\\000026B\r\\3C", 13),
];

static UNREAD_UNQUOTED_SPACE: [&[u8]; 3] = [
    b"a&#x20;b>",
    b"\n</script'\t&#x41;\xff ",
    b"=amp;\x0b\\3C <script>",
];

static READ_UNQUOTED_GREATER: [Read<'static>; 3] = [
    (b"a&#x20;b>", b"a b", 8),
    (b"&amp;copy&#x3B;>\\000026B", b"&copy;", 15),
    (b"&#x5C;x41></script", b"\\x41", 9),
];

static UNREAD_UNQUOTED_GREATER: [&[u8]; 3] = [
    b">",
    b"\x0c=\xff\\3C &#0;<script>",
    b"\t</script\xe2\x80\xa8&#0;>",
];

static READ_SCRIPT_SINGLE: [Read<'static>; 5] = [
    (b"\\x41\\u0042'", b"AB", 10),
    (
        b"-->\xff</style\\u2028amp;>'",
        b"-->\xff</style\xe2\x80\xa8amp;>",
        22,
    ),
    (
        b"\x00\\x41<script&#x41;&\\\\u2028'",
        b"\x00A<script&#x41;&\\u2028",
        26,
    ),
    (
        b"=amp;<script>\\u2028&#0;'",
        b"=amp;<script>\xe2\x80\xa8&#0;",
        23,
    ),
    (
        b">/</script\x00<!--amp;</style'",
        b">/</script\x00<!--amp;</style",
        26,
    ),
];

static UNREAD_SCRIPT_SINGLE: [&[u8]; 7] = [
    b"a\\0'",
    b"\\uD800'",
    b"a\n'",
    b"\\3C </style/\\x41\r='",
    b"<script&#0;>a\n--> '",
    b"&copy;<script\\<\\x41'",
    b">\t\\x41</style\xff`",
];

static READ_SCRIPT_DOUBLE: [Read<'static>; 4] = [
    (
        b"\x00amp;aamp;</style=\\u2028\"",
        b"\x00amp;aamp;</style=\xe2\x80\xa8",
        24,
    ),
    (
        b"-->\t>&#0;--></style<script\"",
        b"-->\t>&#0;--></style<script",
        26,
    ),
    (b">amp;\\x0A\\\\3C \\x0B\\'\"\x0c", b">amp;\n\\3C \x0b'", 20),
    (b" </style<script&-->\"", b" </style<script&-->", 19),
];

static UNREAD_SCRIPT_DOUBLE: [&[u8]; 4] = [
    b">\xe2\x80\xa8</stylea\x00&#0;\n",
    b" &#x41;\n\\x41`<script",
    b"</styleamp;\\3C \\\r\"",
    b"&#0;</style\n\\n\x0b<\x0c\"",
];

static READ_STYLE_SINGLE: [Read<'static>; 6] = [
    (b"\\3C  a'", b"< a", 6),
    (b"\\000026B'", b"&B", 8),
    (b"\\3C \t\x0b=</script-->/'", b"<\t\x0b=</script-->/", 19),
    (b">\\3C \\000026B</script'", b"><&B</script", 21),
    (b"</script&#x41;'\xff&#x41;><'", b"</script&#x41;", 14),
    (b"&copy;<!--\\3C \\\xff`'", b"&copy;<!--<\xff`", 17),
];

static UNREAD_STYLE_SINGLE: [&[u8]; 4] = [
    b"\x00</script-->\\u2028\r",
    b"<script\xff&#x41;\\na",
    b"</style\\x41>\"=\n<!--",
    b"</style&#0;\x00\xe2\x80\xa8",
];

static READ_STYLE_DOUBLE: [Read<'static>; 4] = [
    (
        b"</style&#x41;\xff\xe2\x80\xa8\\n \"",
        b"</style&#x41;\xff\xe2\x80\xa8n ",
        20,
    ),
    (
        b"&#x41;\xff>\\u2028&copy;\xff\"",
        b"&#x41;\xff>u2028&copy;\xff",
        21,
    ),
    (b"amp;></script\\&#0;\"", b"amp;></script&#0;", 18),
    (b"'\\000026B\\000026B</script` \"", b"'&B&B</script` ", 27),
];

static UNREAD_STYLE_DOUBLE: [&[u8]; 4] = [
    b"\x0b`'\\u2028\x0c</script\"",
    b"\\u2028\t&copy;\n\xe2\x80\xa8'\r",
    b"&copy;\xff\n\\000026B=\t\r\"",
    b"\\u2028\\\x0c<script\\n=>",
];

static READ_SCRIPT_BODY: [Read<'static>; 9] = [
    (b"</scri</script>", b"</scri", 6),
    (b"<\\!--<script></script>x", b"<\\!--<script>", 13),
    (
        b"<!--<script></script></script>",
        b"<!--<script></script>",
        21,
    ),
    (b"<!--><script></script>", b"<!--><script>", 13),
    (b"a</SCRIPT x", b"a", 1),
    (
        b"&copy; \\x41\xe2\x80\xa8<!--\x0c</script>",
        b"&copy; \\x41\xe2\x80\xa8<!--\x0c",
        19,
    ),
    (
        b"&#x41;a\"a\r\\000026B</script>",
        b"&#x41;a\"a\r\\000026B",
        18,
    ),
    (
        b"/&copy;\xe2\x80\xa8`\\u2028</script>",
        b"/&copy;\xe2\x80\xa8`\\u2028",
        17,
    ),
    (
        b"\r\\u2028\xff\"\\3C \x0b</script>",
        b"\r\\u2028\xff\"\\3C \x0b",
        14,
    ),
];

static UNREAD_SCRIPT_BODY: [&[u8]; 4] = [
    b"\xe2\x80\xa8\\x41&copy;=amp; ",
    b"\n<&#0;amp;\xe2\x80\xa8\r&copy;",
    b"</style\xff\\3C 'a\x00/",
    b">\"&#x41;<!--\x0bamp;",
];

static READ_STYLE_BODY: [Read<'static>; 5] = [
    (b"</style\x0b</style>", b"</style\x0b", 8),
    (
        b"&#0;\\u2028\x0c==\\x41</style>\x00",
        b"&#0;\\u2028\x0c==\\x41",
        17,
    ),
    (b"\r\\3C '`&copy;<!--></style>", b"\r\\3C '`&copy;<!-->", 18),
    (
        b"\xe2\x80\xa8&copy;\\x41 \\n</style>",
        b"\xe2\x80\xa8&copy;\\x41 \\n",
        16,
    ),
    (b"<\\3C amp;&#x41;</style>", b"<\\3C amp;&#x41;", 15),
];

static UNREAD_STYLE_BODY: [&[u8]; 4] = [
    b"&&#x41;'\x0bamp;\\u2028\"",
    b"amp;</style\"<'\xe2\x80\xa8",
    b" =-->\xe2\x80\xa8/<&#x41;",
    b" \\n`\t\r<!--</style",
];
