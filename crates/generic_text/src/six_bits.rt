// Codes of six bits, packed into bytes high bit first, and the characters and tabs that they are (001 §5.2.2.2).
ghost use Rattle.std.specs.Prelude.{◌≡◌, ◌%◌, ◌<◌, ◌≤◌};
ghost use Rattle.characters.specs.Characters.{code_characters, character_of};

use refusals::Refusal;

// The 64 code characters: 0 where a code is no character: the end, 27, the tab (28) and 31. A constant that is lent: tried, and as a
// `static` reading misses its bar, since the compiler makes tests of single bits of it.
pub const CHARACTERS: [u8; 64] =
    *b"\0ABCDEFGHIJKLMNOPQRSTUVWXYZ\0\0\x1E\n\0 !\"#$%&'()*+,-./0123456789:;<=>?";

// The code whose next six bits count spaces.
const TAB: u8 = 28;

// The codes that are left: those in the low bits of the last byte, of which an even number is left, and in the bytes behind it.
#[derive(Clone, Copy)]
pub struct Codes<'a> {
    pub table: &'a [u8; 64],
    pub last: u8,
    pub width: u32,
    pub rest: &'a [u8],
    ghost even: { width % 2 ≡ 0 },
    ghost few: { width ≤ 6 },
    ghost listed: { table.now ≡ code_characters },
}

// A byte so many times: a character once, or a tab's spaces.
#[derive(Clone, Copy)]
pub struct Run {
    pub byte: u8,
    pub times: u8,
}

impl<'a> Codes<'a> {
    ghost use Rattle.generic_text.specs.Codes.{codes_in, codes_left, NextCode, NextRun, NextFour};

    pub(crate) fn new(table: &'a [u8; 64], bytes: &'a [u8]) -> Codes<'a>
        requires { table.now ≡ code_characters }
        ensures { codes_left result ≡ codes_in bytes.now }
    {
        Codes {
            table,
            last: 0,
            width: 0,
            rest: bytes,
        }
    }

    // The characters of the next three bytes' four codes and what is left behind them, where no bits are left of the last byte and each
    // of the four is a character's.
    pub fn next_four(self) -> Option<([u8; 4], Codes<'a>)>
        ensures { NextFour self.entry result }
    {
        if self.width != 0 {
            return None;
        }
        let [a, b, c, rest @ ..] = self.rest else {
            return None;
        };
        let high = (*a as u32) * 256 + *b as u32;
        let codes = high * 256 + *c as u32;
        let w = character(self.table, codes / 262144 % 64);
        let x = character(self.table, codes / 4096 % 64);
        let y = character(self.table, codes / 64 % 64);
        let z = character(self.table, codes % 64);
        if w == 0 || x == 0 || y == 0 || z == 0 {
            return None;
        }
        Some(([w, x, y, z], Codes::new(self.table, rest)))
    }

    // The next character, or a tab's spaces, and what is left behind them; nothing where the text ends.
    pub fn next_run(self) -> Result<Option<(Run, Codes<'a>)>, Refusal>
        ensures { NextRun (codes_left self.entry) result }
    {
        let Some((code, rest)) = self.next_code() else {
            return Ok(None);
        };
        if code == 0 {
            return Ok(None);
        }
        // a tab's next code counts spaces
        if code == TAB {
            let Some((times, rest)) = rest.next_code() else {
                return Err(Refusal::NoCharacter);
            };
            return Ok(Some((Run { byte: b' ', times }, rest)));
        }
        match character(self.table, code as u32) {
            0 => Err(Refusal::NoCharacter),
            byte => Ok(Some((Run { byte, times: 1 }, rest))),
        }
    }

    // The next code of six bits, high bit first, and what is left behind it; leftover bits are not read.
    fn next_code(self) -> Option<(u8, Codes<'a>)>
        ensures { NextCode self.entry result }
    {
        // not `==`: with that the compiler tests for 6 before each four, and reading misses its bar
        if 6 <= self.width {
            let rest = Codes {
                table: self.table,
                last: self.last,
                width: 0,
                rest: self.rest,
            };
            return Some((self.last % 64, rest));
        }
        let [byte, rest @ ..] = self.rest else {
            return None;
        };
        let width = self.width + 2;
        let both = (self.last as u32) * 256 + *byte as u32;
        let rest = Codes {
            table: self.table,
            last: *byte,
            width,
            rest,
        };
        Some((((both >> width) % 64) as u8, rest))
    }
}

// The character of a code, 0 where it is none.
fn character(table: &[u8; 64], code: u32) -> u8
    requires { (table.now ≡ code_characters) × (code < 64) }
    ensures { result ≡ character_of code }
{
    table[code as usize]
}
