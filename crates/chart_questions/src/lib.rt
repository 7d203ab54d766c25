// Questions 1 to 4 about a chart, and the bodies of its fields. Each pass answers a result.
#![tactic(auto)]

mod fields;

ghost use Rattle.std.specs.Prelude.{◌≡◌, true, false, MatchOption};
ghost use Rattle.model.specs.Charts.{asked, size_found};
ghost use Rattle.model.specs.Charts.{fields_of, tags_of, body_of, has_weights, same_list, division_answer, tags_answer, size_answer};

use fields::Fields;
use model::Refusal;

// Questions 1 and 2: at most 8,192 bytes, which divide exactly into fields.
pub fn ask_fields(bytes: &[u8]) -> Result<(), Refusal>
    ensures { asked result ≡ division_answer bytes.now }
{
    if 8192 < bytes.len() {
        return Err(Refusal::TooLong);
    }
    if divides(bytes) {
        Ok(())
    } else {
        Err(Refusal::Undivided)
    }
}

// Question 2: field after field, up to the very end.
fn divides(bytes: &[u8]) -> bool
    ensures { result ≡ (fields_of bytes.now).complete }
{
    let mut fields = Fields { rest: bytes };
    while let Some(_) = fields.next() {}
    fields.rest.is_empty()
}

// Question 3: fields 44, 4C and 52 in that sequence, and no other behind them but 57.
pub fn ask_tags(bytes: &[u8]) -> Result<(), Refusal>
    ensures { asked result ≡ tags_answer bytes.now }
{
    let tags = [0x44, 0x4C, 0x52];
    if has_tags(bytes, &tags) {
        return Ok(());
    }
    let weighted = [0x44, 0x4C, 0x52, 0x57];
    if has_tags(bytes, &weighted) {
        return Ok(());
    }
    Err(Refusal::WrongTags)
}

// Has the input a field with each of these tags, in their sequence, and no other behind them?
fn has_tags(bytes: &[u8], tags: &[u8]) -> bool
    ensures { result ≡ same_list (tags_of bytes.now) tags.now }
{
    let mut fields = Fields { rest: bytes };
    for tag in tags {
        let Some(field) = fields.next() else {
            return false;
        };
        if field.tag != *tag {
            return false;
        }
    }
    fields.next().is_none()
}

// The body of the fourth field, if there is one: the weights.
pub fn weights_of(bytes: &[u8]) -> Option<&[u8]>
    ensures { MatchOption result (has_weights bytes.now ≡ false) (λ body. (has_weights bytes.now ≡ true) × (body.now ≡ body_of bytes.now 3)) }
{
    Fields { rest: bytes }.nth(3).map(|field| field.body)
}

// The body of field i, counted from 0; empty where there are not so many fields.
pub fn body_of(bytes: &[u8], i: usize) -> &[u8]
    ensures { result.now ≡ body_of bytes.now i }
{
    Fields { rest: bytes }
        .nth(i)
        .map_or(&[], |field| field.body)
}

// Question 4: the body of field 44 is one byte, at most 64.
pub fn find_size(body: &[u8]) -> Result<usize, Refusal>
    ensures { size_found result ≡ size_answer body.now }
{
    if body.len() != 1 {
        return Err(Refusal::NoSize);
    }
    let n = body[0] as usize;
    if 64 < n { Err(Refusal::NoSize) } else { Ok(n) }
}
