use super::Iv;
use crate::guesses::{Guess, Guesses};
use crate::path::Path;
use crate::row::Orig;
use indexmap::IndexMap;
use mesh_algo::{Life, Pair, SeqWindow};
use mesh_base::Mac;

const A: Mac = Mac([2, 0, 0, 0, 0, 10]);

// It takes the struct apart, and so stands here, and not in a crate of tests.
#[test]
fn tables_numbers_best_neighbours_and_guessed_places_are_all(rt: HostRuntime) {
    let Iv {
        me,
        sent,
        origs,
        paths,
        guesses,
    } = Iv::new(rt.alloc(), A);
    let _tables: (IndexMap<Mac, Orig>, IndexMap<Pair, Path>) = (origs, paths);
    assert_eq!(rt; (me, sent), (A, 0));
    let Guesses { guesses } = guesses;
    let Guess {
        life,
        first,
        own,
        echo,
        behind,
    } = guesses[0];
    assert_eq!(rt; (guesses.len(), life, first), (64, 0, 0));
    assert_eq!(rt; (own, echo, behind), (0, 0, 0));
    let Orig { life, best } = Orig {
        life: Life {
            last: 1,
            newest: 2,
            forwarded: SeqWindow::new(),
            restarted: Some(3),
        },
        best: None,
    };
    let Life {
        last,
        newest,
        forwarded,
        restarted,
    } = life;
    let Path { heard, values } = Path::new();
    assert_eq!(rt;
        (last, newest, forwarded.count(), heard.count(), values),
        (1, 2, 0, 0, [0; 5])
    );
    assert_eq!(rt; (restarted, best.is_some()), (Some(3), false));
}
