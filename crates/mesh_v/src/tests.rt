use super::V;
use crate::path::Path;
use crate::row::{LastElp, Orig};
use indexmap::IndexMap;
use mesh_algo::Pair;
use mesh_base::Mac;

const A: Mac = Mac([2, 0, 0, 0, 0, 10]);

// It takes the struct apart, and so stands here, and not in a crate of tests.
#[test]
fn two_tables_and_three_numbers_are_all(rt: HostRuntime) {
    let V {
        me,
        ogms,
        elps,
        origs,
        paths,
    } = V::new(rt.alloc(), A);
    let _tables: (IndexMap<Mac, Orig>, IndexMap<Pair, Path>) = (origs, paths);
    assert_eq!(rt; (me, ogms, elps), (A, 0, 0));
    let LastElp { moment, throughput } = LastElp {
        moment: 1,
        throughput: 2,
    };
    let Orig { life, elp } = Orig {
        life: None,
        elp: None,
    };
    let Path { heard, value } = Path::new();
    assert_eq!(rt;
        (moment, throughput, life.is_none(), elp.is_none()),
        (1, 2, true, true)
    );
    assert_eq!(rt; (heard.count(), value), (0, 0));
}
