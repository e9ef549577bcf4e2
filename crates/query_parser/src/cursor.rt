//! A cursor over the tokens of a text, which cuts each as it is reached.

ghost use Rattle.std.specs.Prelude.{◌≡◌, ◌<◌, ◌≤◌, ◌+◌, length, IfOk};
ghost use Rattle.query_tokens.specs.Stream as spec;
ghost use Rattle.query_parser.specs.Reading as reading;
ghost use Rattle.query_parser.specs.Reading.{Reads};

use data_types::Name;
use query_tokens::{Kind, QueryFault, Reason, Token, lex};
use std::alloc::{AllocError, Global};
use std::marker::Model;

/// The tokens of a text from one on. A token is cut when it is reached, and no memory is taken.
#[derive(Drop)]
pub struct Tokens<'a> {
    /// The text from the next token on, where that is, and that token.
    ahead: &'a [u8],
    at: u32,
    token: Token,
}

impl<'a> Model for Tokens<'a> {
    ghost use Rattle.query_tokens.specs.Stream.{Stream, stream_code};

    ghost Value = { Stream };

    ghost coded = { stream_code };

    ghost use Rattle.query_parser.specs.Cursor.{stream_of, IsReady};

    ghost view = { stream_of };

    ghost invariant = { IsReady };
}

impl<'a> Tokens<'a> {
    #[tactic(auto, using(query_tokens::proofs::Streams::lexemes_blanks))]
    pub fn new(text: &'a str) -> Tokens<'a>
        requires { length text.now ≤ 65536 }
        ensures { result ≡ spec.tokens text.now }
    {
        let (ahead, blanks) = lex::skip(text.as_bytes());
        Tokens {
            ahead,
            at: blanks as u32,
            token: lex::token(ahead),
        }
    }

    #[tactic(auto, using(query_tokens::proofs::Streams::steps))]
    pub(crate) fn peek(&self) -> Kind
        ensures { result ≡ spec.kind self.now }
    {
        self.token.kind
    }

    #[tactic(auto, using(query_tokens::proofs::Streams::steps))]
    pub fn place(&self) -> u32
        ensures { result ≡ spec.place self.now }
    {
        self.at
    }

    #[tactic(auto, using(query_tokens::proofs::Streams::steps))]
    pub fn number(&self) -> i64
        ensures { result ≡ spec.number self.now }
    {
        self.token.number
    }

    /// The name or the text of the token, its doubled quotes as one.
    #[tactic(auto, using(query_tokens::proofs::Streams::steps))]
    pub fn word(&self, alloc: Global) -> Result<Name, AllocError>
        ensures { IfOk result (λ v. v ≡ spec.word self.now) }
    {
        lex::value(alloc, self.ahead, self.token.len)
    }

    /// Goes on to the next token; at the end, or at a token that is a fault, it stays.
    #[tactic(auto, using(query_tokens::proofs::Streams::moves))]
    pub fn take(&mut self)
        ensures { self.new ≡ spec.next self.old }
    {
        if lex::is_last(self.token.kind) {
            return;
        }
        let rest = lex::rest(self.ahead, self.token.len);
        let (ahead, blanks) = lex::skip(rest);
        self.at += (self.token.len + blanks) as u32;
        self.ahead = ahead;
        self.token = lex::token(ahead);
    }

    #[tactic(auto, unfolding(crate::specs::Reading::refusal, crate::specs::Reading::reason_of))]
    pub fn refuse(&self) -> QueryFault
        ensures { result ≡ reading.refusal self.now }
    {
        QueryFault::At(reason_of(self.peek()), self.place())
    }

    pub(crate) fn too_deep(&self) -> QueryFault
        ensures { result ≡ QueryFault.At Reason.TooDeep (spec.place self.now) }
    {
        QueryFault::At(Reason::TooDeep, self.place())
    }

    /// Whether the token is of this kind.
    #[tactic(auto, unfolding(crate::specs::Reading::sees))]
    pub(crate) fn sees(&self, kind: Kind) -> bool
        ensures { result ≡ reading.sees kind self.now }
    {
        lex::same_kind(self.peek(), kind)
    }

    /// Takes a token of this kind if it is there, and says whether it was.
    #[tactic(auto, unfolding(crate::specs::Reading::after))]
    pub(crate) fn eat(&mut self, kind: Kind) -> bool
        ensures found { result ≡ reading.sees kind self.old }
        ensures after { self.new ≡ reading.after kind self.old }
    {
        let found = self.sees(kind);
        if found {
            self.take();
        }
        found
    }

    /// Takes a token of this kind, or refuses the text there.
    #[tactic(auto, unfolding(crate::specs::Reading::expect))]
    pub fn expect(&mut self, kind: Kind) -> Result<(), QueryFault>
        ensures { Reads (reading.expect kind self.old) result self.new }
    {
        if self.sees(kind) {
            self.take();
            Ok(())
        } else {
            Err(self.refuse())
        }
    }
}

#[tactic(auto, unfolding(crate::specs::Reading::reason_of))]
fn reason_of(kind: Kind) -> Reason
    ensures { result ≡ reading.reason_of kind }
{
    match kind {
        Kind::BadCharacter => Reason::BadCharacter,
        Kind::OpenText => Reason::OpenText,
        Kind::NumberTooWide => Reason::NumberTooWide,
        Kind::NameTooLong => Reason::NameTooLong,
        Kind::TextTooLong => Reason::TextTooLong,
        _ => Reason::Unexpected,
    }
}
