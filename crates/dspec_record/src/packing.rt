//! What is worked out once of fields that callers pack into words of eight bytes: the claim, how many words there are, and which
//! of their bits count.

ghost use Rattle.std.specs.Prelude.{◌≡◌, ◌≤◌, ◌<◌, ◌^◌, length};
ghost use Rattle.dspec_record.specs.Packing.{signature_of, claim_of, words_in, masks_for};

use crate::enabling::MAX_WORDS;
use crate::laid_out::laid_shape;
use crate::{Field, Header};

/// How many bytes each of these fields has, four bits a field, the first field lowest.
fn signature(fields: &[Field]) -> u32
    requires { length fields.now ≤ 8 }
    ensures { result ≡ signature_of fields.now }
{
    let mut word = 0;
    let mut rest = fields.len();
    while rest > 0 {
        rest -= 1;
        word = word * 16 + fields[rest].width() as u32;
    }
    word
}

/// What is true of the records of this EPID with these fields: the EPID, and above 32 bits the widths.
pub(crate) fn claim_for(epid: u32, fields: &[Field]) -> u64
    requires { length fields.now ≤ 8 }
    ensures { result ≡ claim_of epid fields.now }
{
    u64::from(epid) + u64::from(signature(fields)) * (1 << 32)
}

/// How many words the text of these fields has without a stamp; 0 where there is no field.
pub(crate) fn words_for(fields: &[Field]) -> u32
    requires { length fields.now ≤ 8 }
    ensures { result ≡ words_in fields.now }
{
    if fields.is_empty() {
        return 0;
    }
    (laid_shape(Header::One, fields).size + 7) / 8
}

/// Which bits of the words are bits of these fields.
pub(crate) fn masks_of(fields: &[Field]) -> [u64; MAX_WORDS]
    requires { length fields.now ≤ 8 }
    ensures { result ≡ masks_for fields.now }
{
    let mut masks = [0; MAX_WORDS];
    let mut end = Header::One.fields_start();
    for field in fields {
        let place = field.place(end);
        masks[place / 8] += field.limit() << (place % 8 * 8) as u32;
        end = place + field.width();
    }
    masks
}
