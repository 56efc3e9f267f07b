// The capture, record by record, by a unit that takes the same steps.
use crate::page::Page;
use hearing::Who;
use rooms::State;
use showing::{Ends, Start, Turn, begin, seen_of, take_next};
use std::fmt::{Display, Write};
use std::io;
use std::io::Print;
use streams::read_full;

// The lines are made on the page, and written at once.
fn print_page<D: Display + Drop>(rt: &HostRuntime, page: &mut Page, lines: D) -> io::Result<()> {
    page.clear();
    page.write(lines)?;
    rt.write_all(page.as_bytes())
}

// A proved loop has to end, and nothing says that the input does: it counts its turns, up to a number that no run uses
// up. Behind a capture that is whole come the values.
fn show_records(
    rt: &HostRuntime,
    map: &[u8],
    store: &mut [u8],
    image: &[u8],
    first: &[u8],
    start: State,
    page: &mut Page,
) -> io::Result<()> {
    let mut bytes = [0u8; 8];
    let mut state = start;
    for _ in 0..u64::MAX {
        let n = read_full(&mut rt.stdin(), &mut bytes);
        let seen = seen_of(store);
        match take_next(map, store, image, state, &bytes, n) {
            Ok(Some(step)) => {
                print_page(
                    rt,
                    page,
                    Turn {
                        map,
                        seen: &seen,
                        store,
                        bytes: &bytes,
                        was: state,
                        step,
                    },
                )?;
                state = step.state;
            }
            Ok(None) => return print_page(rt, page, Ends { map, first, store }),
            Err(_) => return Ok(()),
        }
    }
    Ok(())
}

fn show_unit(
    rt: &HostRuntime,
    map: &[u8],
    store: &mut [u8],
    image: &[u8],
    who: Who,
) -> io::Result<()> {
    let first = seen_of(store);
    let state = begin(map, store, image, who);
    let mut page = Page::new();
    print_page(
        rt,
        &mut page,
        Start {
            map,
            seen: &first,
            store,
            who,
        },
    )?;
    show_records(rt, map, store, image, &first, state, &mut page)
}

// Nothing of a unit whose start is refused.
pub fn show(
    rt: &HostRuntime,
    map: &[u8],
    store: &mut [u8],
    image: &[u8],
    adr: &[u8],
) -> io::Result<()> {
    match tracing::check_files(map, store, image, adr) {
        Ok(()) => show_unit(rt, map, store, image, tracing::who_of(adr)),
        Err(_) => Ok(()),
    }
}
