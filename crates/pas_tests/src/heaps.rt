use pas_profile::{Kind, Profile};
use pas_utility::HeapTable;

#[test]
fn a_shared_heap_and_another(rt: HostRuntime) {
    let table = HeapTable::new(&Profile {
        pages: 4,
        threads: 1,
        age: 2,
        heaps: 3,
        shared: 2,
        classes: 16,
    });
    assert!(rt; table.kind_for(0, 5) == Kind::Class(5) && table.kind_for(1, 5) == Kind::Shared);
    assert!(rt; table.directory(2, Kind::Bitfit) == 66);
}
