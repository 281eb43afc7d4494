ghost use Rattle.std.specs.Prelude.{◌≡◌};

// The kinds of record, by document 01's numbers.
#[derive(Clone, Copy, Debug, PartialEq, Eq)]
pub enum Kind {
    Include = 1,
    CppInclude = 2,
    Namespace = 3,
    Const = 4,
    Typedef = 5,
    Enum = 6,
    Struct = 7,
    Union = 8,
    Exception = 9,
    Service = 10,
    Function = 11,
    Field = 12,
    EnumMember = 13,
    Annotations = 14,
    Annotation = 15,
    Name = 16,
    FieldId = 17,
    // void too
    KeywordType = 18,
    NamedType = 19,
    List = 20,
    Set = 21,
    Map = 22,
    String = 23,
    Integer = 24,
    Double = 25,
    Boolean = 26,
    Hex = 27,
    // a name as value
    NameValue = 28,
    ListValue = 29,
    MapValue = 30,
    Property = 31,
    LineComment = 32,
    BlockComment = 33,
}

// The papers' number.
impl From<Kind> for u32 {
    ghost use Rattle.ast.specs.KindNumber.{number_of};

    ghost from_gives = { λ kind number. number ≡ number_of kind };

    fn from(kind: Kind) -> u32 {
        kind as u32
    }
}

// A number that no kind has.
#[derive(Clone, Copy, Debug, PartialEq, Eq)]
pub struct UnknownKind(pub u32);

impl TryFrom<u32> for Kind {
    ghost use Rattle.ast.specs.KindNumber.{Decodes};

    type Error = UnknownKind;

    ghost try_from_gives = { Decodes };

    fn try_from(number: u32) -> Result<Self, UnknownKind> {
        match number {
            1 => Ok(Kind::Include),
            2 => Ok(Kind::CppInclude),
            3 => Ok(Kind::Namespace),
            4 => Ok(Kind::Const),
            5 => Ok(Kind::Typedef),
            6 => Ok(Kind::Enum),
            7 => Ok(Kind::Struct),
            8 => Ok(Kind::Union),
            9 => Ok(Kind::Exception),
            10 => Ok(Kind::Service),
            11 => Ok(Kind::Function),
            12 => Ok(Kind::Field),
            13 => Ok(Kind::EnumMember),
            14 => Ok(Kind::Annotations),
            15 => Ok(Kind::Annotation),
            16 => Ok(Kind::Name),
            17 => Ok(Kind::FieldId),
            18 => Ok(Kind::KeywordType),
            19 => Ok(Kind::NamedType),
            20 => Ok(Kind::List),
            21 => Ok(Kind::Set),
            22 => Ok(Kind::Map),
            23 => Ok(Kind::String),
            24 => Ok(Kind::Integer),
            25 => Ok(Kind::Double),
            26 => Ok(Kind::Boolean),
            27 => Ok(Kind::Hex),
            28 => Ok(Kind::NameValue),
            29 => Ok(Kind::ListValue),
            30 => Ok(Kind::MapValue),
            31 => Ok(Kind::Property),
            32 => Ok(Kind::LineComment),
            33 => Ok(Kind::BlockComment),
            _ => Err(UnknownKind(number)),
        }
    }
}
