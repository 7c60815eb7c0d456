ghost use Rattle.std.specs.Prelude.{◌≡◌, ◌<◌, ◌^◌, length, IfOk};
ghost use Rattle.task_tokens.specs.Tokens.{tokens};

use crate::front::front;
use crate::kinds::{Token, TokenKind};
use ids::Listed;
use std::alloc::{AllocError, Global};

/// The tokens of a text, each the longest, with a last one at the text's end. Blanks and comments
/// separate tokens and are none. Refused only when out of memory: what no program can hold has a
/// kind too.
pub fn tokenize(alloc: Global, text: &[u8]) -> Result<Listed<Token>, AllocError>
    requires { length text.now < 2 ^ 32 }
    ensures { IfOk result (λ ts. ts ≡ tokens 0 0 text.now) }
{
    let mut all = Listed::new(alloc);
    let mut at = 0;
    while at < text.len() {
        let (token, size) = front(alloc, text.split_at(at).1)?;
        match token {
            Some(kind) => all.push(Token {
                kind,
                offset: at as u32,
            })?,
            None => {}
        }
        at += size;
    }
    all.push(Token {
        kind: TokenKind::End,
        offset: at as u32,
    })?;
    Ok(all)
}
