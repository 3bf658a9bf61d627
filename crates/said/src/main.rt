// What the commands say of odd texts and files, for both outputs: the stored run holds it, since rt compares standard output alone.
#![tactic(auto)]

ghost use Rattle.std.specs.Prelude.{◌≡◌, length};

use commands::Said;
use record::Reading;
use run::Group;
use shown::came_or;
use system::say;

// What is said for the two outputs.
fn both(rt: &impl Print, said: Said, out: &[u8], err: &[u8]) {
    say(rt, came_or(out, said.out, b"(no room)\n"));
    say(rt, b"for people: ");
    say(rt, came_or(err, said.err, b"(no room)\n"));
    say(rt, b"\n");
}

fn fitting() -> [u8; 32768]
    ensures { 32768 ≡ length result }
{
    [32; 32768]
}

fn spaces() -> [u8; 32769]
    ensures { 32769 ≡ length result }
{
    [32; 32769]
}

fn long_file() -> [u8; 294922]
    ensures { 294922 ≡ length result }
{
    [0; 294922]
}

fn list_by(rt: &impl Print, rd: Reading, group: Group, headed: bool, name: &[u8], text: &[u8]) {
    let mut out = [0u8; 512];
    let mut err = [0u8; 128];
    let said = commands::list(0, rd, group, headed, name, text, &mut out, &mut err);
    both(rt, said, &out, &err);
}

fn list(rt: &impl Print, headed: bool, name: &[u8], text: &[u8]) {
    list_by(rt, Reading::Old, Group::Five, headed, name, text);
}

fn list_depths(rt: &impl Print, headed: bool, name: &[u8], text: &[u8]) {
    list_by(rt, Reading::Old, Group::Nine, headed, name, text);
}

fn list_kept(rt: &impl Print, headed: bool, name: &[u8], text: &[u8]) {
    list_by(rt, Reading::Kept, Group::Five, headed, name, text);
}

fn pack(rt: &impl Print, name: &[u8], text: &[u8]) {
    let mut out = [0u8; 64];
    let mut err = [0u8; 128];
    let said = files::pack(name, text, &mut out, &mut err);
    both(rt, said, &out, &err);
}

fn unpack(rt: &impl Print, headed: bool, name: &[u8], file: &[u8]) {
    let mut out = [0u8; 128];
    let mut err = [0u8; 128];
    let said = files::unpack(0, headed, name, file, &mut out, &mut err);
    both(rt, said, &out, &err);
}

fn lists(rt: &impl Print) {
    list(rt, false, b"-", b"#![a]xb=>c;");
    list(rt, true, b"two", b"#![a]xb=>c;");
    list(rt, true, b"of them", b"a\n  $");
    list(rt, false, b"empty", b"");
    list(rt, false, b"ill", b"ab\n\xff");
    list(rt, false, b"open", b"a /* b");
    list(
        rt,
        false,
        b"a narrow buffer",
        b"; ; ; ; ; ; ; ; ; ; ; ; ; ; ; ; ; ; ; ; ; ; ; ; ; ; ; ; ; ; ; ; ; ; ; ; ; ; ; ; ; ; ; ; ; ; ; ; ; ; ; ;",
    );
    let text = fitting();
    list(rt, false, b"32,768", &text);
    let more = spaces();
    list(rt, true, b"32,769", &more);
}

// The column for people counts UTF-16 units, and a line ends at a CR too; of an ill-formed text the beginning is counted.
fn columns(rt: &impl Print) {
    list(rt, false, b"units", b"\xc3\xa9 \"\xf0\x9f\x98\x80\" $");
    list(rt, false, b"lines", b"a\r\nb\r $");
    list(rt, false, b"beginning", b"\xc3\xa9\r\n\xc3\xa9\xff");
}

fn packs(rt: &impl Print) {
    pack(rt, b"a file", b"ab");
    pack(rt, b"refused", b"ab\n \"");
    pack(rt, b"a narrow buffer", b"a;a;a;a;a");
    let text = spaces();
    pack(rt, b"32,769", &text);
}

fn unpacks(rt: &impl Print) {
    unpack(
        rt,
        false,
        b"a file",
        b"LTK\x01\x00\x01\x00\x00\x00\x0f\x00\x00\x00\x00\x02\x00\x00\x00",
    );
    unpack(rt, true, b"none", b"LTK\x01\x00\x00\x00\x00\x00");
    unpack(rt, false, b"no mark", b"LTX");
    unpack(rt, false, b"cut", b"LTK\x01");
    unpack(rt, false, b"version 2", b"LTK\x02\x00\x00\x00\x00\x00");
    unpack(
        rt,
        false,
        b"count",
        b"LTK\x01\x00\x02\x00\x00\x00\x0f\x00\x00\x00\x00\x02\x00\x00\x00",
    );
    unpack(
        rt,
        true,
        b"kind 54",
        b"LTK\x01\x00\x01\x00\x00\x00\x36\x00\x00\x00\x00\x02\x00\x00\x00",
    );
    let file = long_file();
    unpack(rt, false, b"long", &file);
}

// `list --depth`: two numbers more on a token's line, one on the end's, none on an error's.
fn depths(rt: &impl Print) {
    list_depths(rt, false, b"nested", b"/*/**/*/a=>b/* */;/**/");
    list_depths(rt, true, b"refused", b"/* /* */ */ a\n$");
    list_depths(rt, false, b"empty", b"");
    list_depths(rt, false, b"ill", b"/**/\xff");
    let more = spaces();
    list_depths(rt, false, b"32,769", &more);
}

// `list --kept`: the letter after an attribute stands in its word; in code a quote may end the text, and a regex literal needs its number of hashes.
fn kept(rt: &impl Print) {
    list_kept(rt, false, b"letter", b"#![a]xb=>c;");
    list_kept(rt, false, b"quote", b"=>'a'");
    list_kept(rt, false, b"hashes", b"=>r#\"a\"b\"#;");
}

fn main(rt: HostRuntime) {
    lists(&rt);
    columns(&rt);
    packs(&rt);
    unpacks(&rt);
    depths(&rt);
    kept(&rt);
}
