ghost use Rattle.std.specs.Prelude.{◌≤◌, length};
ghost use Rattle.csn_lexer.specs.declared.token.TheConstants.{MOST_TEXT};

use csn_lexer::{LexFault, Lexer, Token, TokenKind, is_word};
use std::process::Abort;

// Tokens, and the place and kind of what stands behind the last of them, asked for twice.
fn expect(
    rt: &impl Abort,
    text: &[u8],
    tokens: &[(TokenKind, u32, u32)],
    end: Result<Option<Token>, LexFault>,
)
    requires { length text.now ≤ MOST_TEXT }
{
    let mut lexer = Lexer::new(text);
    for (kind, start, end) in tokens {
        let token = Token {
            kind: *kind,
            start: *start,
            end: *end,
        };
        assert_eq!(rt; lexer.next(), Ok(Some(token)));
    }
    assert_eq!(rt; [lexer.next(), lexer.next()], [end, end]);
}

#[test]
fn reads_every_kind(rt: HostRuntime) {
    use TokenKind::*;
    expect(
        &rt,
        b"<Last Block> ::= <N:bit(2)>{L|H!0}&1=bit*2+3 bit**// ;",
        &[
            (Less, 0, 1),
            (Word, 1, 5),
            (Word, 6, 11),
            (Greater, 11, 12),
            (Define, 13, 16),
            (Less, 17, 18),
            (Word, 18, 19),
            (Colon, 19, 20),
            (Word, 20, 23),
            (ParenLeft, 23, 24),
            (Word, 24, 25),
            (ParenRight, 25, 26),
            (Greater, 26, 27),
            (BraceLeft, 27, 28),
            (Word, 28, 29),
            (Bar, 29, 30),
            (Word, 30, 31),
            (Bang, 31, 32),
            (Word, 32, 33),
            (BraceRight, 33, 34),
            (Ampersand, 34, 35),
            (Word, 35, 36),
            (Equal, 36, 37),
            (Word, 37, 40),
            (Star, 40, 41),
            (Word, 41, 42),
            (Plus, 42, 43),
            (Word, 43, 44),
            (Word, 45, 48),
            (StarStar, 48, 50),
            (SlashSlash, 50, 52),
            (Semicolon, 53, 54),
        ],
        Ok(None),
    );
}

#[test]
fn takes_the_longest_token(rt: HostRuntime) {
    use TokenKind::*;
    expect(
        &rt,
        b"a-b/c.'1,_-- \xff\0-\n::=::***\t///\r",
        &[
            (Word, 0, 10),
            (Define, 17, 20),
            (Colon, 20, 21),
            (Colon, 21, 22),
            (StarStar, 22, 24),
            (Star, 24, 25),
            (SlashSlash, 26, 28),
        ],
        Err(LexFault { place: 28 }),
    );
}

#[test]
fn refuses_bytes_that_begin_no_token(rt: HostRuntime) {
    use TokenKind::*;
    expect(&rt, b"", &[], Ok(None));
    expect(&rt, b" -- x", &[], Ok(None));
    expect(&rt, b"\xff", &[], Err(LexFault { place: 0 }));
    expect(&rt, b"0\0", &[(Word, 0, 1)], Err(LexFault { place: 1 }));
    expect(&rt, b"a- b", &[(Word, 0, 1)], Err(LexFault { place: 1 }));
    expect(&rt, b"a/_", &[(Word, 0, 1)], Err(LexFault { place: 1 }));
}

/// Words, and bytes that are none.
const WORDS: [(&[u8], bool); 16] = [
    (b"0", true),
    (b"_", true),
    (b"a", true),
    (b"3GPP", true),
    (b"x'.,", true),
    (b"a/b-c", true),
    (b"UL/DL", true),
    (b"", false),
    (b"-a", false),
    (b"a-", false),
    (b"a--b", false),
    (b"a/_", false),
    (b"a b", false),
    (b"a:", false),
    (b"'a", false),
    (b"\xe9", false),
];

#[test]
fn tells_words(rt: HostRuntime) {
    for (bytes, word) in WORDS {
        assert_eq!(rt; is_word(bytes), word, "{bytes:?}");
    }
}
