ghost use Rattle.std.specs.Prelude.{◌≡◌};
ghost use Rattle.src_token.specs.Marks.{one_mark, two_mark};

use crate::Mark;

/// The mark that one character is.
pub fn mark_of_one(c: char) -> Option<Mark>
    ensures { result ≡ one_mark c }
{
    match c {
        '{' => Some(Mark::OpenBrace),
        '}' => Some(Mark::CloseBrace),
        '(' => Some(Mark::OpenParenthesis),
        ')' => Some(Mark::CloseParenthesis),
        '[' => Some(Mark::OpenBracket),
        ']' => Some(Mark::CloseBracket),
        ',' => Some(Mark::Comma),
        ';' => Some(Mark::Semi),
        ':' => Some(Mark::Colon),
        '.' => Some(Mark::Dot),
        '=' => Some(Mark::Eq),
        '<' => Some(Mark::Lt),
        '>' => Some(Mark::Gt),
        '+' => Some(Mark::Plus),
        '-' => Some(Mark::Minus),
        '*' => Some(Mark::Star),
        '/' => Some(Mark::Slash),
        '%' => Some(Mark::Percent),
        '!' => Some(Mark::Not),
        '&' => Some(Mark::And),
        '|' => Some(Mark::Or),
        '#' => Some(Mark::Pound),
        '_' => Some(Mark::Underscore),
        _ => None,
    }
}

/// The mark that two characters are.
pub fn mark_of_two(c: char, d: char) -> Option<Mark>
    ensures { result ≡ two_mark c d }
{
    match (c, d) {
        (':', ':') => Some(Mark::PathSep),
        ('.', '.') => Some(Mark::DotDot),
        ('-', '>') => Some(Mark::RArrow),
        ('=', '>') => Some(Mark::FatArrow),
        ('=', '=') => Some(Mark::EqEq),
        ('!', '=') => Some(Mark::Ne),
        ('<', '=') => Some(Mark::Le),
        ('>', '=') => Some(Mark::Ge),
        ('&', '&') => Some(Mark::AndAnd),
        ('|', '|') => Some(Mark::OrOr),
        _ => None,
    }
}
