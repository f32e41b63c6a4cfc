// What the lines of a text say together.
ghost use Rattle.std.specs.Prelude.{◌≡◌, ◌<◌, ltb};
ghost use Rattle.spelling.specs.Lines.{acts_of};
ghost use Rattle.lists.specs.Find.{pick};
ghost use Rattle.spelling.specs.declared.Misread.TheVariants.{Large};
ghost use Rattle.spelling.specs.Reading.{no_survey, faulted, with_index, version_form, head_at, index_said, nodes_said, version_said, desks_said, threads_said, heads_said, events_said, behind_nodes, surveyed, survey_of, last_from};
ghost use Rattle.wordreader.specs.Turns.{line_next, number_next, survey_next};

use crate::layout::shape_said;
use crate::saying::said_of;
use crate::words::{line_byte, no_line};
use image::{head_lines, top_of};
use spelling::{Act, Line, Misread, Survey};

// What the lines said, and the number of the last of them.
#[derive(Clone, Copy)]
pub struct Surveyed {
    pub survey: Survey,
    pub last: u64,
}

pub fn no_survey() -> Survey
    ensures { result ≡ no_survey }
{
    Survey {
        fault: None,
        begun: false,
        settled: false,
        form: 1,
        n: 0,
        t: 1,
        count: 0,
    }
}

fn fault_at(v: Survey, e: Misread) -> Survey
    ensures { result ≡ faulted v e }
{
    Survey {
        fault: Some(e),
        ..v
    }
}

// The form of the image that a version's number names.
#[tactic(auto, unfolding(spelling::specs::Reading::version_form))]
fn version_form(x: u64) -> Option<u8>
    ensures { result ≡ version_form x }
{
    match x {
        1 => Some(1),
        2 => Some(2),
        _ => None,
    }
}

// The index that a line says; 0 where it says none.
#[tactic(auto, unfolding(spelling::specs::Reading::index_said))]
fn index_said(a: Act) -> u64
    ensures { result ≡ index_said a }
{
    match a {
        Act::Head(_, index) | Act::Node(_, _, index, _) => index,
        _ => 0,
    }
}

#[tactic(auto, unfolding(spelling::specs::Reading::nodes_said))]
fn nodes_said(i: u64, v: Survey, x: u64) -> Survey
    ensures { result ≡ nodes_said i v x }
{
    if v.begun {
        return fault_at(v, Misread::Strange(i));
    }
    if 255 < x {
        return fault_at(v, Misread::Large(i));
    }
    Survey {
        begun: true,
        n: x,
        ..v
    }
}

#[tactic(auto, unfolding(spelling::specs::Reading::version_said))]
fn version_said(i: u64, v: Survey, x: u64) -> Survey
    ensures { result ≡ version_said i v x }
{
    if v.settled {
        return fault_at(v, Misread::Strange(i));
    }
    match version_form(x) {
        Some(form) => Survey {
            settled: true,
            form,
            ..v
        },
        None => fault_at(v, Misread::Strange(i)),
    }
}

// One head index per desk, and T.
#[tactic(auto, unfolding(spelling::specs::Reading::desks_said))]
fn desks_said(i: u64, v: Survey, x: u64) -> Survey
    ensures { result ≡ desks_said i v x }
{
    if v.settled {
        return fault_at(v, Misread::Strange(i));
    }
    Survey {
        settled: true,
        form: 4,
        t: x,
        ..v
    }
}

#[tactic(auto, unfolding(spelling::specs::Reading::threads_said, image::specs::Form::per_desk))]
fn threads_said(i: u64, v: Survey, x: u64) -> Survey
    ensures { result ≡ threads_said i v x }
{
    if v.form == 4 {
        return fault_at(v, Misread::Strange(i));
    }
    Survey { t: x, ..v }
}

// An index is said.
fn index_at(v: Survey) -> Survey
    ensures { result ≡ with_index v }
{
    Survey { settled: true, ..v }
}

// An index of head line k.
fn head_at(i: u64, v: Survey, k: u64) -> Survey
    ensures { result ≡ head_at i v k }
{
    if head_lines(shape_said(v)) as u64 <= k {
        return fault_at(v, Misread::Large(i));
    }
    index_at(v)
}

#[tactic(auto, unfolding(spelling::specs::Reading::heads_said, spelling::specs::Reading::head_named, image::specs::Form::per_desk))]
fn heads_said(i: u64, v: Survey, named: Option<u64>) -> Survey
    ensures { result ≡ heads_said i v named }
{
    match named {
        Some(k) if v.form == 4 => head_at(i, v, k),
        None if v.form != 4 => head_at(i, v, 0),
        _ => fault_at(v, Misread::Strange(i)),
    }
}

fn nodes_index(i: u64, v: Survey, x: u64) -> Survey
    ensures { result ≡ pick (ltb x v.n) (with_index v) (faulted v (Large i)) }
{
    if v.n <= x {
        return fault_at(v, Misread::Large(i));
    }
    index_at(v)
}

#[tactic(auto, unfolding(spelling::specs::Reading::events_said))]
fn events_said(i: u64, v: Survey, x: u64) -> Survey
    ensures { result ≡ events_said i v x }
{
    match v.count.checked_add(x) {
        Some(count) if count <= 65535 => Survey { count, ..v },
        _ => fault_at(v, Misread::Many(i)),
    }
}

// A line behind `nodes`.
#[tactic(auto, unfolding(spelling::specs::Reading::behind_nodes))]
fn behind_nodes(i: u64, v: Survey, a: Act) -> Survey
    ensures { result ≡ behind_nodes i v a }
{
    match a {
        Act::Threads(x) => threads_said(i, v, x),
        Act::Head(named, _) => heads_said(i, v, named),
        Act::Node(n, _, _, _) => nodes_index(i, v, n),
        Act::Events(_, _, _, times) => events_said(i, v, times),
        Act::Version(x) => version_said(i, v, x),
        Act::Desks(x) => desks_said(i, v, x),
        Act::Nothing | Act::Nodes(_) | Act::Unknown | Act::TooLarge => {
            fault_at(v, Misread::Strange(i))
        }
    }
}

// Line i says a.
#[tactic(auto, unfolding(spelling::specs::Reading::surveyed))]
pub fn survey_act(i: u64, v: Survey, a: Act) -> Survey
    ensures { result ≡ surveyed i v a }
{
    if v.fault.is_some() {
        return v;
    }
    match a {
        Act::Nothing => v,
        Act::TooLarge => fault_at(v, Misread::Large(i)),
        _ if top_of(v.form) < index_said(a) => fault_at(v, Misread::Large(i)),
        Act::Nodes(x) => nodes_said(i, v, x),
        _ if v.begun => behind_nodes(i, v, a),
        _ => fault_at(v, Misread::Strange(i)),
    }
}

#[tactic(auto, unfolding(crate::specs::Turns::line_next))]
pub fn next_line(l: Line, x: u8) -> Line
    ensures { result ≡ line_next l x }
{
    if x == b'\n' {
        no_line()
    } else {
        line_byte(l, x)
    }
}

#[tactic(auto, unfolding(crate::specs::Turns::number_next))]
fn next_number(i: u64, x: u8) -> u64
    requires { i < 18446744073709551615 }
    ensures { result ≡ number_next i x }
{
    if x == b'\n' { i + 1 } else { i }
}

#[tactic(auto, unfolding(crate::specs::Turns::survey_next))]
fn next_survey(i: u64, v: Survey, l: Line, x: u8) -> Survey
    ensures { result ≡ survey_next i v l x }
{
    if x == b'\n' {
        survey_act(i, v, said_of(l))
    } else {
        v
    }
}

// What the lines of the text say, and the number of its last line.
pub fn survey_of(t: &[u8]) -> Surveyed
    ensures survey { result.survey ≡ survey_of t.now }
    ensures last { result.last ≡ last_from 0 (acts_of t.now) }
{
    let mut l = no_line();
    let mut v = no_survey();
    let mut line: u64 = 0;
    for &x in t {
        v = next_survey(line, v, l, x);
        line = next_number(line, x);
        l = next_line(l, x);
    }
    Surveyed {
        survey: survey_act(line, v, said_of(l)),
        last: line,
    }
}
