//! Values that are lists: members between commas, with the blanks around them dropped (RFC 9110, section 5.6.1).
ghost use Rattle.std.specs.Prelude.{◌≡◌, reverse};
ghost use Rattle.std.specs.Iterator.{YieldsFirstRef, item_count};
ghost use Rattle.httparse.specs.Grammar.{skip_ows, trim_ows, is_ows};
ghost use Rattle.kcr_desk.specs.Members.{has_member};

fn is_blank(byte: u8) -> bool
    ensures { result ≡ is_ows byte }
{
    byte == b' ' || byte == b'\t'
}

fn trim_start(mut bytes: &[u8]) -> &[u8]
    ensures { result.now ≡ skip_ows bytes.now }
{
    while let [first, rest @ ..] = bytes
        && is_blank(*first)
    {
        bytes = rest;
    }
    bytes
}

fn trim_end(mut bytes: &[u8]) -> &[u8]
    ensures { result.now ≡ reverse (skip_ows (reverse bytes.now)) }
{
    while let [rest @ .., last] = bytes
        && is_blank(*last)
    {
        bytes = rest;
    }
    bytes
}

#[tactic(auto, unfolding(httparse::specs::Grammar::trim_ows))]
fn trim(bytes: &[u8]) -> &[u8]
    ensures { result.now ≡ trim_ows bytes.now }
{
    trim_end(trim_start(bytes))
}

/// The members of a value, without the blanks around each.
#[derive(Drop)]
pub(crate) struct Members<'a> {
    rest: Option<&'a [u8]>,
}

impl<'a> Members<'a> {
    ghost use Rattle.kcr_desk.specs.Members.{members, members_left};

    fn new(value: &'a [u8]) -> Members<'a>
        ensures { members_left result ≡ members value.now }
    {
        Members { rest: Some(value) }
    }
}

impl<'a> Iterator for Members<'a> {
    ghost use Rattle.kcr_desk.specs.Members.{members_left};

    type Item = &'a [u8];

    ghost next_gives = { YieldsFirstRef members_left };

    ghost remaining = { item_count members_left };

    fn next(&mut self) -> Option<&'a [u8]> {
        let rest = self.rest?;
        match rest.iter().position(|byte| *byte == b',') {
            Some(comma) => {
                self.rest = Some(&rest[comma + 1..]);
                Some(trim(&rest[..comma]))
            }
            None => {
                self.rest = None;
                Some(trim(rest))
            }
        }
    }
}

/// Whether the value has this member, in any case.
pub(crate) fn has_member(value: &[u8], text: &[u8]) -> bool
    ensures { result ≡ has_member text.now value.now }
{
    Members::new(value).any(|member| member.eq_ignore_ascii_case(text))
}
