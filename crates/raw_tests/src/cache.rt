//! Which touches of a new cache miss: the lines of these addresses are of one set, which keeps two of them.
use raw_processor::Cache;

#[test]
fn three_lines_of_one_set_all_miss(rt: HostRuntime) {
    let mut cache = Cache::new();
    for address in [0, 2048, 4096, 0] {
        assert!(rt; cache.touch(address));
    }
}
