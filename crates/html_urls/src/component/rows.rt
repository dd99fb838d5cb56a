//! What each byte of a text becomes in its component.
ghost use Rattle.std.specs.Prelude.{◌≡◌, ◌+◌, ◌≤◌, if◌then◌else◌, length, not, take};
ghost use Rattle.percent_encoding.specs.Percent.{encode_byte};
ghost use Rattle.hesc_sinks.specs.Stores.{Stored};
ghost use Rattle.html_urls.specs.Components.{is_encoded};
ghost use Rattle.html_urls.specs.declared.component.TheConstants.{COMPONENT};

use std::simd::Simd;

/// For each byte what it becomes, with padding after it, and at last how many bytes that are.
const ROWS: &[u8; 1024] = b"\
      %00\x03%01\x03%02\x03%03\x03%04\x03%05\x03%06\x03%07\x03\
      %08\x03%09\x03%0A\x03%0B\x03%0C\x03%0D\x03%0E\x03%0F\x03\
      %10\x03%11\x03%12\x03%13\x03%14\x03%15\x03%16\x03%17\x03\
      %18\x03%19\x03%1A\x03%1B\x03%1C\x03%1D\x03%1E\x03%1F\x03\
      %20\x03%21\x03%22\x03%23\x03%24\x03%25\x03%26\x03%27\x03\
      %28\x03%29\x03%2A\x03%2B\x03%2C\x03-\0\0\x01.\0\0\x01%2F\x03\
      0\0\0\x011\0\0\x012\0\0\x013\0\0\x014\0\0\x015\0\0\x016\0\0\x017\0\0\x01\
      8\0\0\x019\0\0\x01%3A\x03%3B\x03%3C\x03%3D\x03%3E\x03%3F\x03\
      %40\x03A\0\0\x01B\0\0\x01C\0\0\x01D\0\0\x01E\0\0\x01F\0\0\x01G\0\0\x01\
      H\0\0\x01I\0\0\x01J\0\0\x01K\0\0\x01L\0\0\x01M\0\0\x01N\0\0\x01O\0\0\x01\
      P\0\0\x01Q\0\0\x01R\0\0\x01S\0\0\x01T\0\0\x01U\0\0\x01V\0\0\x01W\0\0\x01\
      X\0\0\x01Y\0\0\x01Z\0\0\x01%5B\x03%5C\x03%5D\x03%5E\x03_\0\0\x01\
      %60\x03a\0\0\x01b\0\0\x01c\0\0\x01d\0\0\x01e\0\0\x01f\0\0\x01g\0\0\x01\
      h\0\0\x01i\0\0\x01j\0\0\x01k\0\0\x01l\0\0\x01m\0\0\x01n\0\0\x01o\0\0\x01\
      p\0\0\x01q\0\0\x01r\0\0\x01s\0\0\x01t\0\0\x01u\0\0\x01v\0\0\x01w\0\0\x01\
      x\0\0\x01y\0\0\x01z\0\0\x01%7B\x03%7C\x03%7D\x03~\0\0\x01%7F\x03\
      %80\x03%81\x03%82\x03%83\x03%84\x03%85\x03%86\x03%87\x03\
      %88\x03%89\x03%8A\x03%8B\x03%8C\x03%8D\x03%8E\x03%8F\x03\
      %90\x03%91\x03%92\x03%93\x03%94\x03%95\x03%96\x03%97\x03\
      %98\x03%99\x03%9A\x03%9B\x03%9C\x03%9D\x03%9E\x03%9F\x03\
      %A0\x03%A1\x03%A2\x03%A3\x03%A4\x03%A5\x03%A6\x03%A7\x03\
      %A8\x03%A9\x03%AA\x03%AB\x03%AC\x03%AD\x03%AE\x03%AF\x03\
      %B0\x03%B1\x03%B2\x03%B3\x03%B4\x03%B5\x03%B6\x03%B7\x03\
      %B8\x03%B9\x03%BA\x03%BB\x03%BC\x03%BD\x03%BE\x03%BF\x03\
      %C0\x03%C1\x03%C2\x03%C3\x03%C4\x03%C5\x03%C6\x03%C7\x03\
      %C8\x03%C9\x03%CA\x03%CB\x03%CC\x03%CD\x03%CE\x03%CF\x03\
      %D0\x03%D1\x03%D2\x03%D3\x03%D4\x03%D5\x03%D6\x03%D7\x03\
      %D8\x03%D9\x03%DA\x03%DB\x03%DC\x03%DD\x03%DE\x03%DF\x03\
      %E0\x03%E1\x03%E2\x03%E3\x03%E4\x03%E5\x03%E6\x03%E7\x03\
      %E8\x03%E9\x03%EA\x03%EB\x03%EC\x03%ED\x03%EE\x03%EF\x03\
      %F0\x03%F1\x03%F2\x03%F3\x03%F4\x03%F5\x03%F6\x03%F7\x03\
      %F8\x03%F9\x03%FA\x03%FB\x03%FC\x03%FD\x03%FE\x03%FF\x03\
      ";

/// Stores what the byte becomes at a place where a row fits, and answers the place after it. What stands
/// there afterwards is lost.
#[inline(always)]
pub(crate) fn store_encoded(room: &mut [u8], place: usize, b: u8) -> usize
    requires { place + 4 ≤ length room.old }
    ensures { Stored room.old room.new place (encode_byte COMPONENT b) result }
{
    let (bytes, count) = row_of(b);
    Simd::<u8, 4>::from_array(bytes).copy_to_slice(&mut room[place..]);
    place + count
}

// What the byte becomes, with padding after it, and how many bytes that are.
#[inline(always)]
fn row_of(b: u8) -> ([u8; 4], usize)
    ensures bytes { take result.1 result.0 ≡ encode_byte COMPONENT b }
    ensures count { result.1 ≡ (if is_encoded b then 3 else 1) }
{
    let rows: &[u8] = ROWS;
    let row = 4 * usize::from(b);
    let bytes = Simd::<u8, 4>::from_slice(&rows[row..]).to_array();
    (bytes, usize::from(rows[row + 3]))
}

/// Whether the byte stands in a component as it is.
#[inline(always)]
pub(crate) fn is_kept(b: u8) -> bool
    ensures { result ≡ not (is_encoded b) }
{
    row_of(b).1 == 1
}
