// The kinds of token, under the names and in the order of rico's lexer/token.rs.
#![tactic(auto)]

ghost use Rattle.std.specs.Prelude.{◌≡◌};

#[derive(Clone, Copy, Debug, PartialEq, Eq)]
pub enum Token {
    Newline,
    Namespace,
    CppInclude,
    Include,
    Typedef,
    Const,
    Enum,
    Struct,
    Union,
    Exception,
    Service,
    Extends,
    Throws,
    Required,
    Optional,
    Void,
    Bool,
    Byte,
    I8,
    I16,
    I32,
    I64,
    Double,
    String,
    Binary,
    Map,
    List,
    Set,
    Identifier,
    StringLiteral,
    DoubleLiteral,
    HexLiteral,
    IntegerLiteral,
    BooleanLiteral,
    LeftBrace,
    RightBrace,
    LeftBracket,
    RightBracket,
    LeftAngle,
    RightAngle,
    LeftParen,
    RightParen,
    Semicolon,
    Colon,
    Comma,
    Equals,
    Dot,
    Star,
    LineComment,
    BlockComment,
    Oneway,
    // what `#[logos(skip ..)]` passes over: no token of rico's
    Blank,
}

// What a scan of the start of a text finds: the kind of the longest token and its length, or none.
pub type Scan = Option<(Token, usize)>;

// The number of a kind: its place in the enum, from 0.
impl From<Token> for u32 {
    ghost use Rattle.token.specs.Code.{code};

    ghost from_gives = { λ token number. number ≡ code token };

    #[tactic(auto, unfolding(crate::specs::Code::code))]
    fn from(token: Token) -> u32 {
        token as u32
    }
}
