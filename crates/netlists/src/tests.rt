// Words that hold a circuit of given counts, and words that hold none, at the edges of the bounds.
use crate::plain::Plain;
use circuits::circuit::{Circuit, Gate};
use circuits::counts::Counts;
use circuits::pin::Pin;

// One input, one flop and one gate: the gate's own literal is 6, the largest is 7.
const SMALL: Counts = Counts {
    inputs: 1,
    flops: 1,
    gates: 1,
    outputs: 1,
};

// The counts of the circuit with no input, flop or gate, and one output.
const BLANK: Counts = Counts {
    inputs: 0,
    flops: 0,
    gates: 0,
    outputs: 1,
};

// The words hold no circuit of these counts, and so they stand for the blank one.
fn is_blank(counts: Counts, words: &[u32]) -> bool {
    let plain = Plain::new(counts, words);
    !Plain::holds(counts, words) && plain.counts() == BLANK && plain.out(0) == 0
}

#[test]
fn largest_words_are_held(rt: HostRuntime) {
    let words = [5, 4, 7, 2, 6, 9];
    let plain = Plain::new(SMALL, &words);
    assert_eq!(rt; plain.counts(), SMALL);
    assert_eq!(rt; plain.gate(0), Gate { left: 5, right: 4 });
    assert_eq!(rt;
        (plain.next(0), plain.pin(0), plain.out(0)),
        (7, Pin::Free, 6)
    );
    assert_eq!(rt; plain.gate(1), Gate { left: 0, right: 0 });
    assert_eq!(rt;
        (plain.next(1), plain.pin(1), plain.out(1)),
        (0, Pin::Free, 0)
    );
    assert!(rt; Plain::holds(SMALL, &[5, 5, 7, 2, 7]));
}

#[test]
fn a_word_too_large_or_missing_is_not(rt: HostRuntime) {
    assert!(rt; is_blank(SMALL, &[6, 5, 7, 2, 7]));
    assert!(rt; is_blank(SMALL, &[5, 6, 7, 2, 7]));
    assert!(rt; is_blank(SMALL, &[5, 5, 8, 2, 7]));
    assert!(rt; is_blank(SMALL, &[5, 5, 7, 3, 7]));
    assert!(rt; is_blank(SMALL, &[5, 5, 7, 2, 8]));
    assert!(rt; is_blank(SMALL, &[5, 5, 7, 2]));
}

#[test]
fn words_are_checked(rt: HostRuntime) {
    let words = [5, 5, 7, 1, 7];
    let pin = Plain::checked(SMALL, &words).map(|plain| plain.pin(0));
    assert_eq!(rt; pin, Some(Pin::One));
    assert_eq!(rt;
        Plain::checked(SMALL, &words),
        Some(Plain::new(SMALL, &words))
    );
    assert_eq!(rt; Plain::checked(SMALL, &[5, 5, 7, 3, 7]), None);
}

#[test]
fn counts_out_of_bounds_are_not(rt: HostRuntime) {
    let one_output = Counts {
        inputs: 256,
        ..BLANK
    };
    assert!(rt; Plain::holds(one_output, &[513]));
    assert!(rt;
        is_blank(
            Counts {
                inputs: 257,
                ..one_output
            },
            &[513],
        )
    );
    assert!(rt;
        is_blank(
            Counts {
                outputs: 0,
                ..one_output
            },
            &[513],
        )
    );
}
