// From the bytes of a file to its tokens.
ghost use Rattle.std.specs.Prelude.{◌≡◌, ◌≤◌, All, IfOk, length, take};
ghost use Rattle.std.specs.Str.Lossy.{utf8_valid_len};
ghost use Rattle.ap_lex.specs.Tokens.{IsToken};
ghost use Rattle.ap_lexemes.specs.Lexemes.{lexemes_of};
ghost use Rattle.ap_lexemes.specs.Limits.{first_limit};
ghost use Rattle.ap_lexemes.specs.Listing.{listed};
ghost use Rattle.ap_lexemes.specs.Tokenizing.{IsTokenized, fault_where, is_read, readable, tokens_of};

use crate::fault::ParseFault;
use crate::lexemes::Lexemes;
use crate::limits::first_limit;
use crate::stops::{fault_behind, up_to};
use crate::tokenized::Tokenized;
use ap_lex::{Token, tokens_before_fault};
use std::alloc::{AllocError, Global};

/// The tokens of the bytes of a file, up to the first place where none begins. Where the bytes stop being UTF-8, the text is
/// their longest front that is UTF-8. `file` is the number of the file. It fails for want of memory alone.
pub fn tokenize<'a>(alloc: Global, bytes: &'a [u8], file: u32) -> Result<Tokenized<'a>, AllocError>
    requires { length bytes.now ≤ 16777216 }
    ensures { IfOk result (IsTokenized bytes.now file) }
{
    let text = utf8_front(bytes);
    let (tokens, end) = tokens_before_fault(alloc, text)?;
    let is_cut = (end as usize) < bytes.len();
    Tokenized::new(alloc, text, tokens, file, end, is_cut)
}

// The longest front that is UTF-8.
fn utf8_front(bytes: &[u8]) -> &str
    ensures { result.now ≡ take (utf8_valid_len bytes.now) bytes.now }
{
    match bytes.utf8_chunks().next() {
        Some(chunk) => chunk.valid(),
        None => "",
    }
}

impl<'a> Tokenized<'a> {
    /// These tokens of a text, with the place behind them and whether bytes are left there. `file` is the number of its
    /// file. It fails for want of memory alone.
    pub fn new(
        alloc: Global,
        text: &'a str,
        tokens: Vec<Token>,
        file: u32,
        end: u32,
        is_cut: bool,
    ) -> Result<Tokenized<'a>, AllocError>
        requires { All (λ token. IsToken text.now token.kind token.from token.to) tokens.items }
        ensures tokens { IfOk result (λ all. tokens_of all ≡ lexemes_of text.now file tokens.items) }
        ensures end { IfOk result (λ all. all.end ≡ end) }
        ensures cut { IfOk result (λ all. all.is_cut ≡ is_cut) }
    {
        let limit = first_limit(alloc, Lexemes::new(text, &tokens, file))?;
        Ok(Tokenized {
            text,
            tokens,
            file,
            end,
            is_cut,
            limit,
        })
    }

    // All tokens.
    fn lexemes(&self) -> Lexemes<'_>
        ensures { listed result ≡ tokens_of self.now }
    {
        Lexemes::new(self.text, &self.tokens, self.file)
    }

    /// The tokens up to the first limit, with that at which it stands: those that are to be read.
    pub fn readable(&self) -> Lexemes<'_>
        ensures { listed result ≡ readable (tokens_of self.now) }
    {
        up_to(self.lexemes(), self.limit)
    }

    /// Whether all was read where so many of the tokens up to the first limit are left: none, no limit stands in the tokens, and
    /// no bytes are left behind them.
    pub fn is_read(&self, left: usize) -> bool
        ensures { result ≡ is_read (first_limit (tokens_of self.now)) self.now.is_cut left }
    {
        self.limit.is_none() && left == 0 && !self.is_cut
    }

    /// The fault where so many of the tokens up to the first limit are left: it stands at the next one, or behind them all.
    pub fn fault(&self, of_type: bool, left: usize) -> ParseFault
        requires { left ≤ length (readable (tokens_of self.now)) }
        ensures { result ≡ fault_where of_type (tokens_of self.now) self.now.end left }
    {
        let read = self.readable().len() - left;
        fault_behind(of_type, self.lexemes(), self.limit, read, self.end)
    }
}
