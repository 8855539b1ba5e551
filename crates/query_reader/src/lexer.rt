ghost use Rattle.std.specs.Prelude.{◌≡◌, ◌+◌, ◌-◌, ◌<◌, ◌^◌, Ok, Err, length, drop, MatchResult, OnOk, IfOk, IfErr};
ghost use Rattle.std.specs.List.{take_while};
ghost use Rattle.query_reader.specs.Spans.{AreTokensOf};
ghost use Rattle.query_reader.specs.Tokens.{front, is_atom_byte, kind_of, text_tokens};
ghost use Rattle.query_reader.specs.Refusals.{AddsPiece, IsPieceFault, IsReadFault, IsTokenFault};
ghost use Rattle.query_tree.specs.Dialects.{IsFormat};

use crate::atom::atom_kind;
use crate::fault::BAD_TOKEN;
use crate::token::{Token, TokenKind, TokenList};
use query_tree::QueryRefusal;
use std::alloc::Global;

/// Cuts a text into its tokens. The format is 1 or 2.
pub fn tokens(alloc: Global, format: u32, text: &[u8]) -> Result<TokenList, QueryRefusal>
    requires format { IsFormat format }
    requires short { length text.now < 2 ^ 32 - 1 }
    // The tokens are the text's, and the fault stands at the first atom that is in no form.
    ensures exact { MatchResult result (AreTokensOf format text.now) (IsTokenFault format text.now) }

    // The same from the left.
    ensures reading { MatchResult result
        (λ tokens. text_tokens format text.now ≡ Ok tokens)
        (IsReadFault (text_tokens format text.now)) }
{
    scan(alloc, format, text)
}

// Goes through a text from the left.
fn scan(alloc: Global, format: u32, text: &[u8]) -> Result<TokenList, QueryRefusal>
    requires { length text.now < 2 ^ 32 - 1 }
    ensures { MatchResult result
        (λ tokens. text_tokens format text.now ≡ Ok tokens)
        (IsReadFault (text_tokens format text.now)) }
{
    let mut tokens = TokenList::new(alloc);
    let mut at = 0;
    let mut rest = text;
    while !rest.is_empty() {
        let (piece, others) = cut_front(rest);
        if rest[0] != b' ' {
            keep(&mut tokens, format, at, piece)?;
        }
        at += piece.len() as u32;
        rest = others;
    }
    Ok(tokens)
}

// Adds a piece as a token, if it is in a form.
fn keep(tokens: &mut TokenList, format: u32, at: u32, piece: &[u8]) -> Result<(), QueryRefusal>
    requires fits { at + length piece.now < 2 ^ 32 - 1 }
    ensures ok { OnOk result (AddsPiece format tokens.old tokens.new (record { from = at; bytes = piece.now })) }
    ensures fault { IfErr result (IsPieceFault format at piece.now) }
{
    let Some(kind) = piece_kind(format, piece) else {
        return Err(QueryRefusal::Fault {
            code: BAD_TOKEN,
            column: at + 1,
        });
    };
    let token = Token {
        from: at,
        to: at + piece.len() as u32,
        kind,
    };
    match tokens.push(token) {
        Ok(()) => Ok(()),
        Err(_) => Err(QueryRefusal::Memory),
    }
}

// Cuts off what a text begins with: the longest run of an atom's bytes, or else its first byte.
fn cut_front(text: &[u8]) -> (&[u8], &[u8])
    requires { 0 < length text.now }
    ensures front { result.0.now ≡ front text.now }
    ensures others { result.1.now ≡ drop (length (front text.now)) text.now }
{
    let run = run_len(text);
    text.split_at(run.max(1))
}

// How many bytes of an atom a text begins with.
fn run_len(text: &[u8]) -> usize
    ensures { result ≡ length (take_while is_atom_byte text.now) }
{
    text.iter().take_while(|byte| is_atom_byte(**byte)).count()
}

fn is_atom_byte(byte: u8) -> bool
    ensures { result ≡ is_atom_byte byte }
{
    !matches!(byte, b' ' | b'(' | b')')
}

// A parenthesis, or an atom by its form.
fn piece_kind(format: u32, piece: &[u8]) -> Option<TokenKind>
    ensures { result ≡ kind_of format piece.now }
{
    match piece.first()? {
        b'(' => Some(TokenKind::Left),
        b')' => Some(TokenKind::Right),
        _ => atom_kind(format, piece),
    }
}
