// Which definition is offered, on small examples.
use super::offer::offer;
use super::symbol::{Definition, Wanted};

// A definition of the name `f`.
fn defined(number: u16, index: u16, hidden: bool, version: Option<&[u8]>) -> Definition<'_> {
    Definition {
        number,
        name: b"f",
        index,
        hidden,
        weak: false,
        protected: false,
        version,
    }
}

fn wanted<'a>(name: &'a [u8], version: Option<&'a [u8]>) -> Wanted<'a> {
    Wanted { name, version }
}

#[test]
fn the_only_visible_one_is_offered(rt: HostRuntime) {
    let definitions = [defined(7, 3, false, Some(b"v3"))];
    assert_eq!(rt; offer(true, &definitions, wanted(b"f", None)), Some(7));
}

#[test]
fn of_two_visible_ones_none_is_offered(rt: HostRuntime) {
    let definitions = [
        defined(7, 3, false, Some(b"v3")),
        defined(8, 4, false, Some(b"v4")),
    ];
    assert_eq!(rt; offer(true, &definitions, wanted(b"f", None)), None);
}

#[test]
fn a_hidden_one_is_not_offered_without_its_version(rt: HostRuntime) {
    let definitions = [defined(7, 3, true, Some(b"v3"))];
    assert_eq!(rt; offer(true, &definitions, wanted(b"f", None)), None);
    assert_eq!(rt;
        offer(true, &definitions, wanted(b"f", Some(b"v3"))),
        Some(7)
    );
}

#[test]
fn index_2_is_offered_even_if_hidden(rt: HostRuntime) {
    let definitions = [
        defined(7, 2, true, Some(b"v2")),
        defined(8, 3, false, Some(b"v3")),
    ];
    assert_eq!(rt; offer(true, &definitions, wanted(b"f", None)), Some(7));
}

#[test]
fn index_1_serves_any_version_unless_hidden(rt: HostRuntime) {
    let open = [defined(7, 1, false, None)];
    let hidden = [defined(7, 1, true, None)];
    assert_eq!(rt; offer(true, &open, wanted(b"f", Some(b"v9"))), Some(7));
    assert_eq!(rt; offer(true, &hidden, wanted(b"f", Some(b"v9"))), None);
}

#[test]
fn without_versions_the_wanted_one_does_not_count(rt: HostRuntime) {
    let definitions = [defined(7, 0, false, None)];
    assert_eq!(rt;
        offer(false, &definitions, wanted(b"f", Some(b"v9"))),
        Some(7)
    );
    assert_eq!(rt; offer(false, &definitions, wanted(b"g", None)), None);
}
