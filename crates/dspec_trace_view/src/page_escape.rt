//! JSON that may be in a page's script: as it was, but without characters that begin or end markup.

ghost use Rattle.std.specs.{List.list_any, Prelude.◌≡◌, Prelude.[], Prelude.◌∷◌, Prelude.◌++◌, Prelude.IfOk, Prelude.IfSome, Prelude.IfNone, Prelude.OnOk, Prelude.false};
ghost use Rattle.dspec_trace_view.specs.Pages.{escape_of, escapes_of, is_markup};

use std::alloc::{AllocError, Global};

/// What JSON has for a byte that begins or ends markup; None where the byte may be in a page as it is.
fn escape_of(byte: u8) -> Option<&'static [u8]>
    ensures escape { IfSome result (λ escape. escape.now ≡ escape_of byte) }
    ensures plain { IfNone result (escape_of byte ≡ byte ∷ []) }
{
    match byte {
        b'<' => Some(b"\\u003c"),
        b'>' => Some(b"\\u003e"),
        b'&' => Some(b"\\u0026"),
        _ => None,
    }
}

/// Adds a byte as it may be in a page.
fn put_escaped(out: &mut Vec<u8>, byte: u8) -> Result<(), AllocError>
    ensures { OnOk result (out.new.items ≡ out.old.items ++ escape_of byte) }
{
    match escape_of(byte) {
        Some(escape) => out.extend_from_slice(escape)?,
        None => out.push(byte)?,
    }
    Ok(())
}

/// The same JSON without these characters: only its texts have them, and in a text their escapes mean the same.
pub(crate) fn escaped(alloc: Global, json: &[u8]) -> Result<Vec<u8>, AllocError>
    ensures whole { IfOk result (λ page. page.items ≡ escapes_of json.now) }
    ensures plain { IfOk result (λ page. list_any is_markup page.items ≡ false) }
{
    let mut out: Vec<u8> = Vec::new(alloc);
    for byte in json {
        put_escaped(&mut out, *byte)?;
    }
    Ok(out)
}
