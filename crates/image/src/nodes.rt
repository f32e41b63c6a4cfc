// The tests 6, 7 and 8 of an image, whatever holds its nodes: the image by value, or the bytes that it lies in.
ghost use Rattle.std.specs.Prelude.{◌≡◌, ◌≤◌, ◌<◌};
ghost use Rattle.answer.specs.Answers.{Taken};
ghost use Rattle.image.specs.Form.{head_lines};
ghost use Rattle.image.specs.Layout.{content_at, image_shape};
ghost use Rattle.image.specs.Recovered.{head_of, recovered_at, twins, has_twin, first_unclear, first_twin, dummy_of};
ghost use Rattle.image.specs.Refusals.{startable, sound};

use super::Image;
use super::heads::head_of;
use answer::{Answer, Refusal, Reply};

// What holds the nodes of an image. `fits` is what has to be known of it before they are read.
pub trait Nodes {
    ghost use Rattle.image.specs.declared.Image.{Image};

    ghost image: { Self → Image };

    ghost fits: { Self → Type 0 };

    fn count(&self) -> u8
        requires { fits self.now }
        ensures { result ≡ (image self.now).n };

    fn linked(&self, i: usize) -> u8
        requires { fits self.now × (i < (image self.now).n) }
        ensures { result ≡ (content_at (image self.now).nodes i).linked };

    fn index(&self, i: usize) -> u64
        requires { fits self.now × (i < (image self.now).n) }
        ensures { result ≡ (content_at (image self.now).nodes i).index };

    // The head index that a start takes.
    fn head(&self) -> u64
        requires { fits self.now }
        ensures { result ≡ head_of (image self.now) };
}

impl Nodes for Image {
    ghost image = { λ g. g };

    ghost fits = { λ g. (g.n ≤ 64) × (head_lines (image_shape g) ≤ 8) };

    fn count(&self) -> u8 {
        self.n
    }

    fn linked(&self, i: usize) -> u8 {
        self.nodes[i].linked
    }

    fn index(&self, i: usize) -> u64 {
        self.nodes[i].index
    }

    fn head(&self) -> u64 {
        head_of(self.heads, self.shape())
    }
}

// Node i is recovered: h is the head index.
fn is_recovered_at<S: Nodes>(s: &S, i: usize, h: u64) -> bool
    requires { S.fits s.now × ((i < (S.image s.now).n) × (h ≡ head_of (S.image s.now))) }
    ensures { result ≡ recovered_at (S.image s.now) i }
{
    s.linked(i) == 1 && h < s.index(i)
}

// Nodes i and j are recovered, with one index.
pub fn are_twins_at<S: Nodes>(s: &S, i: usize, j: usize, h: u64) -> bool
    requires { S.fits s.now × ((i < (S.image s.now).n) × ((j < (S.image s.now).n) × (h ≡ head_of (S.image s.now)))) }
    ensures { result ≡ twins (S.image s.now) i j }
{
    is_recovered_at(s, i, h) && is_recovered_at(s, j, h) && s.index(i) == s.index(j)
}

// Node i has a lower-numbered twin.
pub fn has_twin<S: Nodes>(s: &S, i: usize, h: u64) -> bool
    requires { S.fits s.now × ((i < (S.image s.now).n) × (h ≡ head_of (S.image s.now))) }
    ensures { result ≡ has_twin (S.image s.now) i }
{
    for j in 0..i {
        if are_twins_at(s, i, j, h) {
            return true;
        }
    }
    false
}

// The first node whose linked byte is above 1, and N where none is.
pub fn first_unclear<S: Nodes>(s: &S) -> usize
    requires { S.fits s.now }
    ensures { result ≡ first_unclear (S.image s.now) }
{
    for i in 0..s.count() as usize {
        if s.linked(i) > 1 {
            return i;
        }
    }
    s.count() as usize
}

// The smallest node number that has a lower-numbered twin, and N where none has.
pub fn first_twin<S: Nodes>(s: &S, h: u64) -> usize
    requires { S.fits s.now × (h ≡ head_of (S.image s.now)) }
    ensures { result ≡ first_twin (S.image s.now) }
{
    let n = s.count() as usize;
    let mut found = n;
    // Document 01 names this form: two loops, left from inside by a label.
    'pairs: for i in 0..n {
        for j in 0..i {
            if are_twins_at(s, i, j, h) {
                found = i;
                break 'pairs;
            }
        }
    }
    found
}

// The lowest-numbered node that is not recovered, and N where every node is.
pub fn dummy<S: Nodes>(s: &S, h: u64) -> usize
    requires { S.fits s.now × (h ≡ head_of (S.image s.now)) }
    ensures { result ≡ dummy_of (S.image s.now) }
{
    let n = s.count() as usize;
    for i in 0..n {
        if !is_recovered_at(s, i, h) {
            return i;
        }
    }
    n
}

// 7, then 8: what a start asks of an image.
pub fn startable<S: Nodes>(s: &S) -> Answer
    requires { S.fits s.now }
    ensures { result ≡ startable (S.image s.now) Taken }
{
    let n = s.count() as usize;
    let h = s.head();
    let j = first_twin(s, h);
    if j < n {
        return Err(Refusal::Twin(j as u32));
    }
    if dummy(s, h) == n {
        return Err(Refusal::NoDummy);
    }
    Ok(Reply::Taken)
}

// 6, 7, 8.
pub fn sound<S: Nodes>(s: &S) -> Answer
    requires { S.fits s.now }
    ensures { result ≡ sound (S.image s.now) Taken }
{
    let n = s.count() as usize;
    let i = first_unclear(s);
    if i < n {
        return Err(Refusal::Linked(i as u32));
    }
    startable(s)
}
