//! Texts that are written in the program: the empty text, symbols, digits and words of the language. One of them takes no memory.
ghost use Rattle.std.specs.Prelude.{◌≡◌, ◌<◌, map, IfSome, IsTrue};
ghost use Rattle.std.specs.Char.{to_ascii_uppercase};
ghost use Rattle.pg_value.specs.Fixed.{fixed_bytes};

/// A text that is written in the program.
#[derive(Clone, Copy)]
pub enum Fixed {
    Empty,
    NotEqual,
    AtMost,
    AtLeast,
    ParenOpen,
    ParenClose,
    BracketOpen,
    BracketClose,
    BraceOpen,
    BraceClose,
    Comma,
    Semicolon,
    Dot,
    Colon,
    EqualSign,
    Below,
    Above,
    Plus,
    Minus,
    Star,
    Percent,
    Bang,
    Ampersand,
    Bar,
    Zero,
    One,
    Two,
    Three,
    Four,
    Five,
    Six,
    Seven,
    Eight,
    Nine,
    WordAcyclic,
    WordAfter,
    WordAll,
    WordAnd,
    WordAny,
    WordAre,
    WordAs,
    WordBegin,
    WordBoolean,
    WordColumns,
    WordCommit,
    WordCount,
    WordCreate,
    WordDefault,
    WordDelete,
    WordDestination,
    WordEdge,
    WordFalse,
    WordFrom,
    WordGraph,
    WordGraphTable,
    WordInsert,
    WordInt,
    WordInteger,
    WordInto,
    WordIs,
    WordKey,
    WordLabel,
    WordMatch,
    WordMax,
    WordMin,
    WordNo,
    WordNot,
    WordNull,
    WordOr,
    WordPath,
    WordPaths,
    WordPrimary,
    WordProperties,
    WordProperty,
    WordReferences,
    WordRollback,
    WordSelect,
    WordSet,
    WordShortest,
    WordSimple,
    WordSource,
    WordStart,
    WordSum,
    WordTable,
    WordTables,
    WordTrail,
    WordTransaction,
    WordTrue,
    WordUpdate,
    WordValues,
    WordVarchar,
    WordVertex,
    WordWalk,
    WordWhere,
    WordWork,
}

impl Fixed {
    /// Its text.
    #[tactic(auto, unfolding(crate::specs::Fixed::fixed_bytes))]
    pub fn as_str(self) -> &'static str
        ensures { result.now ≡ fixed_bytes self }
    {
        match self {
            Fixed::Empty => "",
            Fixed::NotEqual => "<>",
            Fixed::AtMost => "<=",
            Fixed::AtLeast => ">=",
            Fixed::ParenOpen => "(",
            Fixed::ParenClose => ")",
            Fixed::BracketOpen => "[",
            Fixed::BracketClose => "]",
            Fixed::BraceOpen => "{",
            Fixed::BraceClose => "}",
            Fixed::Comma => ",",
            Fixed::Semicolon => ";",
            Fixed::Dot => ".",
            Fixed::Colon => ":",
            Fixed::EqualSign => "=",
            Fixed::Below => "<",
            Fixed::Above => ">",
            Fixed::Plus => "+",
            Fixed::Minus => "-",
            Fixed::Star => "*",
            Fixed::Percent => "%",
            Fixed::Bang => "!",
            Fixed::Ampersand => "&",
            Fixed::Bar => "|",
            Fixed::Zero => "0",
            Fixed::One => "1",
            Fixed::Two => "2",
            Fixed::Three => "3",
            Fixed::Four => "4",
            Fixed::Five => "5",
            Fixed::Six => "6",
            Fixed::Seven => "7",
            Fixed::Eight => "8",
            Fixed::Nine => "9",
            Fixed::WordAcyclic => "ACYCLIC",
            Fixed::WordAfter => "AFTER",
            Fixed::WordAll => "ALL",
            Fixed::WordAnd => "AND",
            Fixed::WordAny => "ANY",
            Fixed::WordAre => "ARE",
            Fixed::WordAs => "AS",
            Fixed::WordBegin => "BEGIN",
            Fixed::WordBoolean => "BOOLEAN",
            Fixed::WordColumns => "COLUMNS",
            Fixed::WordCommit => "COMMIT",
            Fixed::WordCount => "COUNT",
            Fixed::WordCreate => "CREATE",
            Fixed::WordDefault => "DEFAULT",
            Fixed::WordDelete => "DELETE",
            Fixed::WordDestination => "DESTINATION",
            Fixed::WordEdge => "EDGE",
            Fixed::WordFalse => "FALSE",
            Fixed::WordFrom => "FROM",
            Fixed::WordGraph => "GRAPH",
            Fixed::WordGraphTable => "GRAPH_TABLE",
            Fixed::WordInsert => "INSERT",
            Fixed::WordInt => "INT",
            Fixed::WordInteger => "INTEGER",
            Fixed::WordInto => "INTO",
            Fixed::WordIs => "IS",
            Fixed::WordKey => "KEY",
            Fixed::WordLabel => "LABEL",
            Fixed::WordMatch => "MATCH",
            Fixed::WordMax => "MAX",
            Fixed::WordMin => "MIN",
            Fixed::WordNo => "NO",
            Fixed::WordNot => "NOT",
            Fixed::WordNull => "NULL",
            Fixed::WordOr => "OR",
            Fixed::WordPath => "PATH",
            Fixed::WordPaths => "PATHS",
            Fixed::WordPrimary => "PRIMARY",
            Fixed::WordProperties => "PROPERTIES",
            Fixed::WordProperty => "PROPERTY",
            Fixed::WordReferences => "REFERENCES",
            Fixed::WordRollback => "ROLLBACK",
            Fixed::WordSelect => "SELECT",
            Fixed::WordSet => "SET",
            Fixed::WordShortest => "SHORTEST",
            Fixed::WordSimple => "SIMPLE",
            Fixed::WordSource => "SOURCE",
            Fixed::WordStart => "START",
            Fixed::WordSum => "SUM",
            Fixed::WordTable => "TABLE",
            Fixed::WordTables => "TABLES",
            Fixed::WordTrail => "TRAIL",
            Fixed::WordTransaction => "TRANSACTION",
            Fixed::WordTrue => "TRUE",
            Fixed::WordUpdate => "UPDATE",
            Fixed::WordValues => "VALUES",
            Fixed::WordVarchar => "VARCHAR",
            Fixed::WordVertex => "VERTEX",
            Fixed::WordWalk => "WALK",
            Fixed::WordWhere => "WHERE",
            Fixed::WordWork => "WORK",
        }
    }
}

/// The texts.
static TEXTS: [Fixed; 95] = [
    Fixed::Empty,
    Fixed::NotEqual,
    Fixed::AtMost,
    Fixed::AtLeast,
    Fixed::ParenOpen,
    Fixed::ParenClose,
    Fixed::BracketOpen,
    Fixed::BracketClose,
    Fixed::BraceOpen,
    Fixed::BraceClose,
    Fixed::Comma,
    Fixed::Semicolon,
    Fixed::Dot,
    Fixed::Colon,
    Fixed::EqualSign,
    Fixed::Below,
    Fixed::Above,
    Fixed::Plus,
    Fixed::Minus,
    Fixed::Star,
    Fixed::Percent,
    Fixed::Bang,
    Fixed::Ampersand,
    Fixed::Bar,
    Fixed::Zero,
    Fixed::One,
    Fixed::Two,
    Fixed::Three,
    Fixed::Four,
    Fixed::Five,
    Fixed::Six,
    Fixed::Seven,
    Fixed::Eight,
    Fixed::Nine,
    Fixed::WordAcyclic,
    Fixed::WordAfter,
    Fixed::WordAll,
    Fixed::WordAnd,
    Fixed::WordAny,
    Fixed::WordAre,
    Fixed::WordAs,
    Fixed::WordBegin,
    Fixed::WordBoolean,
    Fixed::WordColumns,
    Fixed::WordCommit,
    Fixed::WordCount,
    Fixed::WordCreate,
    Fixed::WordDefault,
    Fixed::WordDelete,
    Fixed::WordDestination,
    Fixed::WordEdge,
    Fixed::WordFalse,
    Fixed::WordFrom,
    Fixed::WordGraph,
    Fixed::WordGraphTable,
    Fixed::WordInsert,
    Fixed::WordInt,
    Fixed::WordInteger,
    Fixed::WordInto,
    Fixed::WordIs,
    Fixed::WordKey,
    Fixed::WordLabel,
    Fixed::WordMatch,
    Fixed::WordMax,
    Fixed::WordMin,
    Fixed::WordNo,
    Fixed::WordNot,
    Fixed::WordNull,
    Fixed::WordOr,
    Fixed::WordPath,
    Fixed::WordPaths,
    Fixed::WordPrimary,
    Fixed::WordProperties,
    Fixed::WordProperty,
    Fixed::WordReferences,
    Fixed::WordRollback,
    Fixed::WordSelect,
    Fixed::WordSet,
    Fixed::WordShortest,
    Fixed::WordSimple,
    Fixed::WordSource,
    Fixed::WordStart,
    Fixed::WordSum,
    Fixed::WordTable,
    Fixed::WordTables,
    Fixed::WordTrail,
    Fixed::WordTransaction,
    Fixed::WordTrue,
    Fixed::WordUpdate,
    Fixed::WordValues,
    Fixed::WordVarchar,
    Fixed::WordVertex,
    Fixed::WordWalk,
    Fixed::WordWhere,
    Fixed::WordWork,
];

/// The places among the texts by their sums, of which no two texts have one.
static PLACES: [u8; 512] = [
    0, 0, 0, 0, 0, 0, 0, 21, 0, 0, 0, 11, 0, 0, 0, 0, 0, 0, 0, 83, 0, 0, 0, 0, 0, 0, 0, 0, 0, 24,
    0, 0, 0, 0, 0, 0, 0, 0, 0, 0, 0, 0, 0, 0, 0, 53, 0, 20, 0, 0, 0, 68, 0, 0, 0, 51, 0, 0, 38, 0,
    88, 0, 67, 0, 0, 0, 0, 77, 0, 28, 0, 0, 0, 0, 0, 0, 0, 0, 0, 0, 0, 0, 44, 43, 0, 54, 40, 5, 0,
    0, 0, 0, 0, 87, 39, 7, 0, 0, 0, 0, 0, 0, 0, 0, 72, 0, 0, 0, 0, 32, 0, 0, 0, 0, 0, 0, 0, 0, 0,
    48, 0, 0, 0, 0, 0, 0, 0, 18, 0, 0, 0, 0, 0, 0, 0, 0, 86, 0, 0, 8, 0, 0, 0, 0, 0, 0, 0, 0, 0,
    15, 0, 0, 0, 0, 0, 0, 0, 0, 0, 0, 50, 0, 0, 0, 0, 0, 0, 25, 0, 0, 84, 0, 0, 0, 0, 0, 0, 0, 0,
    0, 0, 0, 0, 0, 0, 22, 0, 0, 0, 0, 0, 0, 0, 0, 0, 0, 0, 0, 0, 0, 0, 0, 0, 0, 0, 0, 56, 29, 0, 0,
    85, 0, 0, 0, 0, 0, 0, 0, 0, 0, 0, 0, 0, 0, 0, 19, 0, 0, 0, 0, 0, 65, 0, 63, 0, 0, 0, 0, 0, 0,
    90, 0, 0, 0, 0, 0, 0, 33, 0, 94, 76, 0, 0, 0, 0, 0, 0, 0, 0, 0, 0, 0, 0, 78, 0, 12, 0, 0, 0, 0,
    0, 0, 0, 49, 0, 0, 0, 23, 0, 82, 0, 0, 0, 0, 0, 0, 0, 14, 0, 89, 0, 0, 0, 0, 35, 0, 0, 0, 0, 0,
    0, 0, 0, 0, 0, 26, 0, 2, 0, 0, 0, 0, 0, 0, 0, 0, 0, 0, 0, 0, 0, 0, 0, 0, 0, 93, 37, 0, 0, 0, 0,
    6, 0, 0, 0, 0, 75, 42, 0, 0, 0, 57, 0, 0, 71, 30, 46, 0, 0, 0, 0, 0, 55, 0, 0, 0, 0, 0, 0, 0,
    0, 64, 0, 17, 0, 0, 0, 0, 0, 0, 0, 0, 0, 0, 0, 34, 0, 0, 0, 0, 0, 79, 0, 0, 0, 13, 0, 0, 0, 3,
    0, 0, 0, 0, 0, 92, 0, 0, 0, 0, 0, 0, 0, 0, 1, 0, 0, 0, 91, 0, 0, 0, 0, 0, 59, 9, 0, 74, 0, 0,
    0, 0, 41, 0, 0, 16, 62, 0, 0, 73, 0, 60, 0, 70, 0, 0, 0, 0, 0, 0, 0, 0, 0, 27, 0, 0, 0, 0, 0,
    0, 0, 0, 0, 58, 0, 61, 0, 81, 0, 0, 0, 4, 0, 0, 0, 52, 0, 0, 0, 0, 0, 0, 66, 0, 0, 0, 47, 0, 0,
    0, 0, 0, 0, 31, 0, 0, 0, 0, 69, 0, 0, 0, 36, 0, 0, 0, 0, 0, 0, 0, 0, 10, 0, 80, 0, 0, 0, 0, 0,
    45, 0, 0,
];

/// The sum of a text, of its length and three of its bytes, as if its letters were in upper case.
fn sum(length: usize, first: u8, middle: u8, last: u8) -> usize
    ensures { result < 512 }
{
    let [first, middle, last] = [first, middle, last].map(|byte| usize::from(
        byte.to_ascii_uppercase(),
    ));
    (first * 41 + middle * 61 + last * 36 + length % 512 * 61) % 512
}

/// The only one of these texts that bytes may be, whatever the case of their letters.
fn only_one(bytes: &[u8]) -> Fixed {
    match bytes {
        [] => Fixed::Empty,
        [first, ..] => {
            let sum = sum(
                bytes.len(),
                *first,
                bytes[bytes.len() / 2],
                bytes[bytes.len() - 1],
            );
            match TEXTS.get(usize::from(PLACES[sum])) {
                Some(text) => *text,
                None => Fixed::Empty,
            }
        }
    }
}

/// The text of these that has those bytes, if there is one.
pub fn find_fixed(bytes: &[u8]) -> Option<Fixed>
    ensures { IfSome result (λ text. fixed_bytes text ≡ bytes.now) }
{
    let text = only_one(bytes);
    if text.as_str().as_bytes() == bytes {
        Some(text)
    } else {
        None
    }
}

/// The text of these that bytes are when their letters are in upper case, if there is one.
pub fn find_fixed_upper(bytes: &[u8]) -> Option<Fixed>
    ensures { IfSome result (λ text. fixed_bytes text ≡ map to_ascii_uppercase bytes.now) }
{
    let text = only_one(bytes);
    if are_folded(bytes, text.as_str().as_bytes()) {
        Some(text)
    } else {
        None
    }
}

/// Whether bytes are a text when their letters are in upper case.
fn are_folded(bytes: &[u8], text: &[u8]) -> bool
    ensures { IsTrue result → map to_ascii_uppercase bytes.now ≡ text.now }
{
    match bytes {
        [] => text.is_empty(),
        [b, bs @ ..] => match text {
            [] => false,
            [t, ts @ ..] => b.to_ascii_uppercase() == *t && are_folded(bs, ts),
        },
    }
}
