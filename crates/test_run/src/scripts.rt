//! What the tests share: two scripts of one application with their reports, the words of a command
//! line, and a look into a text.

use host_serve::Words;

/// One message through one pipe.
pub(crate) const SCRIPT: &[u8] =
    b"app A\ncreate p0 4 ALPHA\nsub 0x0801 p0\nsend 0x0801 8 16\nrecv p0\n";

/// And what is printed for it.
pub(crate) const REPORT: &[u8] = b"fsw 1\nbus\n\
    1 a1 create 4 ALPHA -> CFE_SUCCESS 1\n\
    2 a1 sub 0x0801 1 4 global -> CFE_SUCCESS\n\
    3 a1 send 8 235 inc -> CFE_SUCCESS 1 1\n\
    4 a1 recv 1 -> CFE_SUCCESS 1\n\
    5 a1 end -> CFE_SUCCESS\n\
    tables\n\
    1 a1 end -> CFE_SUCCESS\n\
    receipts\n\
    a1 msg p1 n1 id=0x0801 seq=1 size=8 sum=236 head=0801c00100011011\n\
    events\n\
    counters\n\
    bus nosub=0 send=0 recv=0 create=0 sub=0 opts=0 find=0 dup=0 limit=0 overflow=0\n\
    use msgids=1/1 pipes=0/1 subs=0/1 buffers=0/1 bytes=0/8\n\
    pool size=524288 free=524264 requests=1 errors=0\n\
    class 8 made=1 free=1\n\
    evs sent=0 filtered=0 cut=0 refused=0 logged=0 lost=0 mode=1\n\
    tbl count=0/0 handles=0/0 bytes=0/0\n\
    tpool size=524288 free=524288 requests=0 errors=0\n\
    end\n";

/// One application as a mission has it at its start: events, a table with a rule, housekeeping.
pub(crate) const MISSION: &[u8] = b"app HK\nevreg 1:0xffff\ncreate p0 10 HK_PIPE\nsub 0x1880 p0\n\
    sub 0x0803 p0\ntreg t0 HK.Limits 8 1 0:1:9\ntload t0 0 0102030405060708\ntget t0\n\
    event 1 2 HK initialized\nhk\nrecv p0\nshow t0\ntrel t0\n";

/// And what is printed for it.
pub(crate) const MISSION_REPORT: &[u8] = b"fsw 1\nbus\n\
    1 a1 evreg 1 -> CFE_SUCCESS\n\
    2 a1 create 10 HK_PIPE -> CFE_SUCCESS 1\n\
    3 a1 sub 0x1880 1 4 global -> CFE_SUCCESS\n\
    4 a1 sub 0x0803 1 4 global -> CFE_SUCCESS\n\
    5 a1 event 1 2 14 -> CFE_SUCCESS\n\
    6 a1 hk -> CFE_SUCCESS 1 1\n\
    7 a1 recv 1 -> CFE_SUCCESS 1\n\
    8 a1 end -> CFE_SUCCESS\n\
    tables\n\
    1 a1 treg HK.Limits 8 1 1 -> CFE_SUCCESS 1\n\
    2 a1 tload 1 0 8 36 -> CFE_SUCCESS\n\
    3 a1 tget 1 -> CFE_TBL_INFO_UPDATED 1\n\
    4 a1 trel 1 -> CFE_SUCCESS\n\
    5 a1 end -> CFE_SUCCESS\n\
    receipts\n\
    a1 tbl h1 v1 size=8 sum=36 head=0102030405060708\n\
    a1 msg p1 n1 id=0x0803 seq=1 size=64 sum=266 head=0803c001003900000000000000000000\n\
    a1 tbl h1 v1 size=8 sum=36 head=0102030405060708\n\
    events\n\
    a1 1 2 HK initialized\n\
    counters\n\
    bus nosub=0 send=0 recv=0 create=0 sub=0 opts=0 find=0 dup=0 limit=0 overflow=0\n\
    use msgids=2/2 pipes=0/1 subs=0/2 buffers=0/1 bytes=0/64\n\
    pool size=524288 free=524208 requests=1 errors=0\n\
    class 64 made=1 free=1\n\
    evs sent=1 filtered=0 cut=0 refused=0 logged=1 lost=0 mode=1\n\
    tbl count=0/1 handles=0/1 bytes=0/16\n\
    tpool size=524288 free=524240 requests=2 errors=0\n\
    tclass 8 made=2 free=2\n\
    end\n";

/// So many words.
pub(crate) fn words_of(words: &[&str]) -> Words {
    let mut kept = Words::new();
    for word in words {
        kept.add(word);
    }
    kept
}

/// How often these bytes stand in the text.
pub(crate) fn count_in(text: &[u8], bytes: &[u8]) -> usize {
    let mut count: usize = 0;
    for i in 0..text.len() {
        if text[i..].starts_with(bytes) {
            count = count.saturating_add(1);
        }
    }
    count
}
