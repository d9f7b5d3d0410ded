ghost use Rattle.std.specs.Prelude.{◌≡◌, ◌<◌, ◌≤◌, ◌+◌, ◌-◌, ◌^◌, [], length, take};
ghost use Rattle.std.specs.Char.{len_utf8};
ghost use Rattle.std.specs.Str.{encode_utf8_all};
ghost use Rattle.src_token.specs.Cursors.{cursor_after, past_char};

use mir_base::Pos;

/// A place in a text: the line and the column, and the number of bytes before it.
#[derive(Clone, Copy)]
pub struct Cursor {
    pub at: Pos,
    pub bytes: u32,
}

impl Cursor {
    /// The beginning of a text.
    #[tactic(auto, unfolding(crate::specs::Cursors::cursor_after, crate::specs::Places::place_after))]
    pub fn start() -> Cursor
        ensures { result ≡ cursor_after [] }
    {
        Cursor {
            at: Pos { line: 1, col: 1 },
            bytes: 0,
        }
    }

    /// The place of what follows a character.
    pub fn past(self, c: char) -> Cursor
        requires lines { self.at.line < 2 ^ 32 - 1 }
        requires columns { self.at.col < 2 ^ 32 - 1 }
        requires bytes { self.bytes + len_utf8 c < 2 ^ 32 }
        ensures { result ≡ past_char self c }
    {
        let bytes = self.bytes + c.len_utf8() as u32;
        let at = if c == '\n' {
            Pos {
                line: self.at.line + 1,
                col: 1,
            }
        } else {
            Pos {
                line: self.at.line,
                col: self.at.col + 1,
            }
        };
        Cursor { at, bytes }
    }

    /// The place of one of some characters, from the place of an earlier one.
    pub fn advance(self, characters: &[char], from: usize, to: usize) -> Cursor
        requires begun { self ≡ cursor_after (take from characters.now) }
        requires onward { from ≤ to }
        requires within { to ≤ length characters.now }
        requires short { length (encode_utf8_all characters.now) < 2 ^ 32 - 1 }
        ensures { result ≡ cursor_after (take to characters.now) }
    {
        let mut cursor = self;
        for i in from..to {
            cursor = cursor.past(characters[i]);
        }
        cursor
    }
}
