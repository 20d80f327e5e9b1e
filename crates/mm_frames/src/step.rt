//! Reading a token.

use crate::fault::ReadFault;
use crate::reader::{Reader, Stage};
use frame_lists::StatementKind;
use mm_tokens::{Token, TokenKind};

impl Reader {
    ghost use Rattle.std.specs.Prelude.{◌≡◌, ◌≤◌, None, OnOk, IfErr, length, slice_range};
    ghost use Rattle.mm_frames.specs.Reading.{IsReady, FailsAt, step_code, with_token, last_code};

    /// A token of the text, by the kind of the token behind it.
    pub fn step(
        &mut self,
        text: &[u8],
        token: Token,
        next: Option<TokenKind>,
    ) -> Result<(), ReadFault>
        requires ready { IsReady self.old }
        requires order { token.start ≤ token.end }
        requires within { token.end ≤ length text.now }
        ensures no_fault { OnOk result (step_code self.old token.kind (slice_range text.now token.start token.end) next ≡ None) }
        ensures next { OnOk result (self.new ≡ with_token self.old token.kind (slice_range text.now token.start token.end) token.start token.end) }
        ensures fault { IfErr result (λ e. FailsAt e token.start (step_code self.old token.kind (slice_range text.now token.start token.end) next)) }
    {
        let start = token.start;
        match token.kind {
            TokenKind::Word => self.word(&text[start as usize..token.end as usize], start, next),
            TokenKind::Constants => self.begin(StatementKind::Constants, start),
            TokenKind::Variables => self.begin(StatementKind::Variables, start),
            TokenKind::Distinct => self.begin(StatementKind::Distinct, start),
            TokenKind::Floating => self.begin_labelled(StatementKind::Floating, start),
            TokenKind::Essential => self.begin_labelled(StatementKind::Essential, start),
            TokenKind::Axiom => self.begin_labelled(StatementKind::Axiom, start),
            TokenKind::Provable => self.begin_labelled(StatementKind::Provable, start),
            TokenKind::Equals => self.equals(start, token.end),
            TokenKind::End => self.end(start),
            TokenKind::OpenBlock => self.open_block(start),
            TokenKind::CloseBlock => self.close_block(start),
            TokenKind::OpenInclude => Err(ReadFault::Include(start)),
            _ => Err(ReadFault::StrayToken(start)),
        }
    }

    /// The end of the text, which has this length.
    pub fn finish(&self, len: u32) -> Result<(), ReadFault>
        ensures no_fault { OnOk result (last_code self.now ≡ None) }
        ensures fault { IfErr result (λ e. FailsAt e len (last_code self.now)) }
    {
        match self.stage {
            Stage::Between => {
                if !self.scopes.is_empty() {
                    return Err(ReadFault::BlockOpen(len));
                }
                Ok(())
            }
            _ => Err(ReadFault::Unended(len)),
        }
    }
}
