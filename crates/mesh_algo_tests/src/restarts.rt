use mesh_algo::life::meeting;
use mesh_algo::{Life, Meeting, SeqWindow};
use mesh_base::Millis;

const ON_TIME: Meeting = Meeting {
    late: false,
    restart: false,
};

const LATE: Meeting = Meeting {
    late: true,
    restart: false,
};

const RESTART: Meeting = Meeting {
    late: false,
    restart: true,
};

// A life whose newest number is 100.
fn life(restarted: Option<Millis>) -> Option<Life> {
    let mut forwarded = SeqWindow::new();
    forwarded.see(100);
    Some(Life {
        last: 40_000,
        newest: 100,
        forwarded,
        restarted,
    })
}

#[test]
fn a_number_is_far_64_back_and_65536_ahead(rt: HostRuntime) {
    let rows = [
        (36, RESTART),
        (37, ON_TIME),
        (100, ON_TIME),
        (65_635, ON_TIME),
        (65_636, RESTART),
    ];
    for (number, met) in rows {
        assert_eq!(rt; meeting(50_000, number, &life(None)), met, "{number}");
    }
    assert_eq!(rt; meeting(50_000, 65_636, &None), ON_TIME);
}

#[test]
fn a_restart_comes_30_seconds_after_another(rt: HostRuntime) {
    for (now, met) in [(50_999, LATE), (51_000, RESTART)] {
        assert_eq!(rt; meeting(now, 36, &life(Some(21_000))), met, "{now}");
        assert_eq!(rt; meeting(now, 65_636, &life(Some(21_000))), met, "{now}");
        assert_eq!(rt; meeting(now, 37, &life(Some(21_000))), ON_TIME, "{now}");
    }
}
