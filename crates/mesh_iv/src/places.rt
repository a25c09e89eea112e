//! Where the rows of an OGM stand: looked for first where those of its originator stood last.

ghost use Rattle.std.specs.Prelude.{◌≡◌};

use crate::iv::Iv;
use crate::ogm::OgmCame;
use crate::path::Path;
use crate::row::Orig;
use indexmap::IndexMap;
use mesh_algo::Pair;
use mesh_algo::table::{Places, first_path_near, place_of};
use mesh_base::Mac;

impl Iv {
    /// Where the rows of an OGM may stand, which is noted for the next one.
    pub(crate) fn places(&mut self, ogm: &OgmCame) -> Places
        ensures { self.new ≡ self.old }
    {
        let guess = self.guesses.of(ogm.orig);
        let orig = orig_place(&self.origs, guess.life as usize, ogm.orig);
        if orig != guess.life as usize {
            self.guesses.take_life(ogm.orig, orig);
        }
        let (first, path) = self.path_places(ogm, guess.first as usize);
        if ogm.from == ogm.orig {
            let pair = Pair {
                orig: self.me,
                from: ogm.from,
            };
            let echo = path_place(&self.paths, guess.echo as usize, pair);
            self.guesses.take_neighbour(ogm.from, path, echo);
        }
        Places { orig, path, first }
    }

    // The places of the first row of the originator, which is looked for first at one place, and of
    // that of the neighbour, which is looked for first as far behind as for the originator before.
    fn path_places(&mut self, ogm: &OgmCame, first: usize) -> (usize, usize)
        ensures { self.new ≡ self.old }
    {
        let pair = ogm.pair();
        let near = first.saturating_add(self.guesses.of(ogm.from).behind as usize);
        if is_path_at(&self.paths, near, pair) {
            return (first, near);
        }
        let first = first_path_near(&self.paths, first, ogm.orig);
        let path = path_from(&self.paths, first, pair);
        self.guesses.take_first(ogm.orig, first);
        self.guesses
            .take_behind(ogm.from, path.saturating_sub(first));
        (first, path)
    }
}

// The place of the row of an originator, which is looked for first at one place.
fn orig_place(origs: &IndexMap<Mac, Orig>, near: usize, orig: Mac) -> usize {
    match origs.get_index(near) {
        Some((other, _)) if *other == orig => near,
        Some(_) | None => place_of(origs, orig),
    }
}

// The place of the row of a pair, which is looked for first at one place.
fn path_place(paths: &IndexMap<Pair, Path>, near: usize, pair: Pair) -> usize {
    if is_path_at(paths, near, pair) {
        near
    } else {
        place_of(paths, pair)
    }
}

// Whether the row of a pair stands at a place.
fn is_path_at(paths: &IndexMap<Pair, Path>, place: usize, pair: Pair) -> bool {
    match paths.get_index(place) {
        None => false,
        Some((other, _)) => *other == pair,
    }
}

// The first place from one on that isn't that of a row of the originator and a neighbour before:
// there the pair's row stands, or would stand.
fn path_from(paths: &IndexMap<Pair, Path>, first: usize, pair: Pair) -> usize {
    let Some(rows) = paths.get_range(first..) else {
        return first;
    };
    let mut place = first;
    for (other, _) in rows.iter() {
        if other.orig != pair.orig || other.from >= pair.from {
            break;
        }
        place = place.saturating_add(1);
    }
    place
}
