// The fields of a chart, one after the other, as far as they are there whole.
ghost use Rattle.std.specs.Prelude.{◌≡◌, length};
ghost use Rattle.std.specs.Iterator.{at_most};
ghost use Rattle.model.specs.Charts.{field_found, field_answer};
ghost use Rattle.chart_questions.specs.Fields.{field_steps};

use model::Header;

#[derive(Clone, Copy)]
pub struct Field<'a> {
    pub tag: u8,
    pub body: &'a [u8],
}

// rest is what is left of the chart.
#[derive(Drop)]
pub struct Fields<'a> {
    pub rest: &'a [u8],
}

impl<'a> Iterator for Fields<'a> {
    type Item = Field<'a>;

    ghost next_gives = { field_steps };

    ghost remaining = { λ s. at_most (length s.rest.now) };

    fn next(&mut self) -> Option<Field<'a>> {
        let Header { tag, length } = first_field(self.rest)?;
        let (_, behind) = self.rest.split_at(3);
        let (body, rest) = behind.split_at(length);
        self.rest = rest;
        Some(Field { tag, body })
    }
}

// The header of the field that the bytes start with, if that and its body are there whole. The length has
// its high byte first.
fn first_field(bytes: &[u8]) -> Option<Header>
    ensures { field_found result ≡ field_answer bytes.now }
{
    let &[tag, high, low, ..] = bytes else {
        return None;
    };
    let length = 256 * high as usize + low as usize;
    if length <= bytes.len() - 3 {
        Some(Header { tag, length })
    } else {
        None
    }
}
