// Families of lists.
use crate::lists::{Kind, Place, Shape, Span};

const NARROW: Shape = Shape {
    streams: Span(1, 6),
    gap: Span(0, 30),
    rate: Span(1, 9),
    width: 40,
    grain: 1,
    only: None,
    place: Place::Anywhere,
};

const WIDE: Shape = Shape {
    width: 1000,
    rate: Span(1, 1_000_000),
    ..NARROW
};

pub static FAMILIES: [(&str, Shape); 12] = [
    ("a few narrow streams", NARROW),
    (
        "many narrow streams",
        Shape {
            streams: Span(20, 64),
            ..NARROW
        },
    ),
    (
        "narrow, touching ends",
        Shape {
            streams: Span(2, 12),
            grain: 10,
            ..NARROW
        },
    ),
    (
        "narrow, at the bottom",
        Shape {
            streams: Span(1, 20),
            place: Place::Bottom,
            ..NARROW
        },
    ),
    (
        "narrow, at the top, much heat",
        Shape {
            streams: Span(1, 64),
            rate: Span(999_000, 1_000_000),
            place: Place::Top,
            ..NARROW
        },
    ),
    (
        "narrow, gaps of 900 to 999",
        Shape {
            gap: Span(900, 999),
            ..NARROW
        },
    ),
    (
        "all hot",
        Shape {
            only: Some(Kind::Hot),
            ..NARROW
        },
    ),
    (
        "all cold",
        Shape {
            only: Some(Kind::Cold),
            ..NARROW
        },
    ),
    ("a few wide streams", WIDE),
    (
        "many wide streams",
        Shape {
            streams: Span(20, 64),
            gap: Span(0, 500),
            ..WIDE
        },
    ),
    (
        "wide, touching ends",
        Shape {
            streams: Span(2, 64),
            gap: Span(0, 20),
            grain: 100,
            ..WIDE
        },
    ),
    (
        "64 streams over all degrees, most heat",
        Shape {
            streams: Span(64, 64),
            gap: Span(0, 1),
            rate: Span(999_999, 1_000_000),
            grain: 999,
            ..WIDE
        },
    ),
];
