// One line of a readable text, with the tag of the next rule form.
ghost use Rattle.std.specs.Prelude.{◌≡◌, not, ◌&&◌, ◌∷◌, ◌+◌, ◌≤◌, length};
ghost use Rattle.layout.specs.Words.{newline};
ghost use Rattle.editions.specs.Converting.{is_rule, has_tag};
ghost use Rattle.editions.specs.Converting as converting;
ghost use Rattle.edition_tags.specs.Tagged.{most_tag};
ghost use Rattle.edition_tags.specs.Appended.{Appended, RuleRest, most_bytes, rule_to, line_to};

use crate::bytes::{after, append};
use crate::tag::Tag;
use edition_reader::Edition;

// What stands behind `(rule` in a rule form.
fn rule_rest(l: &[u8]) -> Option<&[u8]>
    ensures { RuleRest l.now result }
{
    l.strip_prefix(b"(rule")
}

// The number of the rule form after the line. "exactly-one forms not counted"
pub fn next(l: &[u8], tag: &Tag) -> usize
    ensures { result ≡ converting.next tag.now.number l.now }
{
    match rule_rest(l) {
        Some(_) => tag.number + 1,
        None => tag.number,
    }
}

// A rule form with another tag.
pub fn is_lost(l: &[u8], tag: &Tag) -> bool
    ensures { result ≡ (is_rule l.now && not (has_tag tag.now.number l.now)) }
{
    match rule_rest(l) {
        Some(rest) => rest.strip_prefix(tag.text()).is_none(),
        None => false,
    }
}

// `(rule` stays; the tag goes in or out behind it.
// stays (no plainer): the place is handed on as `append` has it, which counts past the table's end.
fn put_rule(to: Edition, rest: &[u8], tag: &Tag, d: &mut [u8], at: usize) -> usize
    requires { at + length rest.now + (5 + most_tag) ≤ most_bytes }
    ensures { Appended d.old at (rule_to to tag.now.number rest.now) d.new result }
{
    let p = append(d, at, b"(rule");
    match to {
        Edition::First => append(d, p, after(rest, tag.length)),
        Edition::Second => {
            let q = append(d, p, tag.text());
            append(d, q, rest)
        }
    }
}

// Behind a byte 10 the line in the other edition.
// stays (no plainer): the place is handed on as `append` has it, which counts past the table's end.
pub fn put_line(to: Edition, l: &[u8], tag: &Tag, d: &mut [u8], at: usize) -> usize
    requires { at + length l.now + (most_tag + 1) ≤ most_bytes }
    ensures { Appended d.old at (newline ∷ line_to to tag.now.number l.now) d.new result }
{
    let p = append(d, at, b"\n");
    match rule_rest(l) {
        Some(rest) => put_rule(to, rest, tag, d, p),
        None => append(d, p, l),
    }
}
