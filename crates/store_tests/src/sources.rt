//! What no clause says: that a source table is loaded if there is memory, with each kind of value, and that each fault is
//! reported.

ghost use Rattle.std.specs.Prelude.{◌<◌, length};

use sky_io::Stop;
use source_load::load_sources;
use source_row::{SourceLists, Sources};
use std::alloc::Global;
use std::test::Fail;
use std::thread::Threads;
use table_rules::LoadFault;

/// Five sources of the objects 1, 4, 1, 99 and 5, the second without a flux, in no order.
const FIVE: &[u8] =
    b"sourceId,objectId,flux,t\n103,1,12,2\n102,4,,1\n101,1,11,1\n105,5,51,2\n104,99,5,2\n";

// The fault of a short text, or none.
fn fault_of<R: Threads + Sync>(rt: &R, alloc: Global, text: &[u8]) -> Option<LoadFault> {
    if text.len() > 99 {
        return None;
    }
    match load_sources(rt, alloc, 1, text) {
        Err(Stop::Bad(fault)) => Some(fault),
        _ => None,
    }
}

// Whether the ids are in ascending order, each with that of its object.
fn ids_are(sources: &Sources) -> bool {
    sources.ids() == [101, 102, 103, 104, 105].as_slice()
        && sources.objects() == [1, 4, 1, 99, 5].as_slice()
        && sources.schema().column(b"t") == Some(3)
}

// Whether the first extra column has these values.
fn values_are(lists: &SourceLists, wants: &[Option<i64>]) -> bool
    requires { 0 < length lists.now.further }
{
    let column = lists.further(0);
    if column.len() != wants.len() {
        return false;
    }
    for (place, want) in wants.iter().enumerate() {
        if column.get(place) != *want {
            return false;
        }
    }
    true
}

// Whether the table has five sources and two extra columns, the first with one NULL.
fn flux_is(sources: &Sources) -> bool {
    sources.len() == 5
        && sources.schema().width() == 4
        && values_are(
            sources.lists(),
            &[Some(11), None, Some(12), Some(5), Some(51)],
        )
}

// Whether a short text is loaded, as the five sources.
fn are_loaded<R: Threads + Sync>(rt: &R, alloc: Global, text: &[u8]) -> bool {
    if text.len() > 99 {
        return false;
    }
    match load_sources(rt, alloc, 1, text) {
        Ok(sources) => ids_are(&sources) && flux_is(&sources),
        Err(_) => false,
    }
}

#[test]
fn sources_are_in_ascending_id(rt: HostRuntime) -> Result<(), Fail> {
    assert!(rt; are_loaded(&rt, rt.alloc(), FIVE));
    Ok(())
}

#[test]
fn each_fault_is_reported(rt: HostRuntime) -> Result<(), Fail> {
    let cases = [
        (b"".as_slice(), LoadFault::Header { field: 1 }),
        (b"sourceId\n".as_slice(), LoadFault::Header { field: 2 }),
        (
            b"sourceId,objectId,t,objectId\n".as_slice(),
            LoadFault::Header { field: 4 },
        ),
        (
            b"sourceId,objectId,x,y,z,a,b,c,d,e,f,g,h,i,j\n".as_slice(),
            LoadFault::Header { field: 15 },
        ),
        (
            b"sourceId,objectId\n1,2\n1\n".as_slice(),
            LoadFault::FieldCount { row: 2, count: 1 },
        ),
        (
            b"sourceId,objectId\n1,\n".as_slice(),
            LoadFault::Number { row: 1, field: 2 },
        ),
        (
            b"sourceId,objectId,t\n1,2,1125899906842625\n".as_slice(),
            LoadFault::Range {
                row: 1,
                field: 3,
                value: 1125899906842625,
            },
        ),
        (
            b"sourceId,objectId\n101,1\n102,4\n101,2\n1\n".as_slice(),
            LoadFault::Repeated { row: 3, id: 101 },
        ),
    ];
    for (text, want) in cases {
        assert!(rt; fault_of(&rt, rt.alloc(), text) == Some(want), "{want:?}");
    }
    Ok(())
}
