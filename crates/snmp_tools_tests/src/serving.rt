//! Tables that are served: what snmpd reports, and outputs that fail.

use crate::run::{NO_LIMITS, OF_THREE, assert_runs_over};
use snmp_net::memory::MemoryLinks;

/// A GetRequest of sysName.0, with community `public` and id 1.
const GET: &[u8] = b"\x30\x26\x02\x01\x01\x04\x06public\xa0\x19\x02\x01\x01\x02\x01\x00\
\x02\x01\x00\x30\x0e\x30\x0c\x06\x08\x2b\x06\x01\x02\x01\x01\x05\x00\x05\x00";

#[test]
fn replies_and_dropped_datagrams_are_counted(rt: HostRuntime) {
    let requests: [&[u8]; 5] = [GET, b"", GET, b"\x30\x00", GET];
    let mut links = MemoryLinks::new(rt.alloc(), &[], &requests);
    assert_runs_over(
        &rt,
        rt.alloc(),
        OF_THREE,
        &mut links,
        NO_LIMITS,
        &[
            (
                "snmp snmpd --table=t.tab --turns=9",
                "listening on 127.0.0.1:161\n3 replies, 2 dropped\n",
                "",
                0,
            ),
            (
                "snmp snmpd --table t.tab --listen 127.0.0.1:16161 --turns 0",
                "listening on 127.0.0.1:16161\n0 replies, 0 dropped\n",
                "",
                0,
            ),
            (
                "snmp snmpd --table=t.tab --turns=4",
                "listening on 127.0.0.1:161\n2 replies, 2 dropped\n",
                "",
                0,
            ),
            (
                "snmp snmpd --table=t.tab --turns=9 -cprivate --listen=h:0161",
                "listening on h:0161\n0 replies, 5 dropped\n",
                "",
                0,
            ),
            (
                "snmp snmpd --table=t.tab --turns=9 --max-size=40",
                "listening on 127.0.0.1:161\n3 replies, 2 dropped\n",
                "",
                0,
            ),
            (
                "snmp snmpd --table=t.tab --turns=9 --max-size=25",
                "listening on 127.0.0.1:161\n0 replies, 5 dropped\n",
                "",
                0,
            ),
        ],
    );
}

#[test]
fn a_failed_output_of_the_service_is_reported(rt: HostRuntime) {
    const LINE: &str = "snmp snmpd --table=t.tab --turns=1 --listen=h:1";
    let requests = [GET];
    let mut links = MemoryLinks::new(rt.alloc(), &[], &requests);
    assert_runs_over(
        &rt,
        rt.alloc(),
        OF_THREE,
        &mut links,
        (9, usize::MAX),
        &[(LINE, "listening", "The output failed.\n", 1)],
    );
    assert_runs_over(
        &rt,
        rt.alloc(),
        OF_THREE,
        &mut links,
        ("listening on h:1\n1 rep".len(), usize::MAX),
        &[(LINE, "listening on h:1\n1 rep", "The output failed.\n", 1)],
    );
}
