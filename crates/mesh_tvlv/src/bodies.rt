ghost use Rattle.std.specs.Prelude.{◌≡◌, ◌<◌, ◌≤◌, ◌↔◌, length, IsErr, ok_or, option_map};
ghost use Rattle.mesh_model.specs.Packets.Bodies.{gateway_size, key_size, multicast_size, key_of_bytes, roaming_of_body, gateway_of_body, multicast_of_body};
ghost use Rattle.mesh_model.specs.Packets.Numbers.{gateway_tvlv, roaming_tvlv, multicast_tvlv};
ghost use Rattle.mesh_tvlv.specs.Translation.{speeds};

use crate::layout::{
    GATEWAY, GATEWAY_SIZE, KEY_SIZE, KEY_VID_OFFSET, MULTICAST, MULTICAST_SIZE, ROAMING,
    UPLOAD_OFFSET,
};
use byteorder::{BigEndian, ByteOrder};
use mesh_base::{Key, Mac, Vid};
use mesh_model::TvlvErr;

/// The client in the first bytes: its address in 6 bytes, the wire number of its VLAN in 2.
pub(crate) fn key_in(bytes: &[u8]) -> Key
    requires { KEY_SIZE ≤ length bytes.now }
    ensures { result ≡ key_of_bytes bytes.now }
{
    let mut mac = [0; 6];
    mac.copy_from_slice(&bytes[..KEY_VID_OFFSET]);
    Key {
        mac: Mac(mac),
        vid: Vid(BigEndian::read_u16(&bytes[KEY_VID_OFFSET..])),
    }
}

/// The client of a roaming advertisement. `BadLength` where the body has fewer than 8 bytes.
pub fn read_roam(body: &[u8]) -> Result<Key, TvlvErr>
    ensures reads { result ≡ ok_or (roaming_of_body body.now)
        (TvlvErr.BadLength roaming_tvlv (length body.now)) }
    ensures short { IsErr result ↔ (length body.now < key_size) }
{
    if body.len() < KEY_SIZE {
        return Err(TvlvErr::BadLength {
            kind: ROAMING,
            len: body.len(),
        });
    }
    Ok(key_in(body))
}

/// What a gateway offers: download and upload, each in 100 kbit/s. `BadLength` where the body has
/// fewer than 8 bytes.
pub fn read_gw(body: &[u8]) -> Result<(u32, u32), TvlvErr>
    ensures reads { result ≡ ok_or (option_map speeds (gateway_of_body body.now))
        (TvlvErr.BadLength gateway_tvlv (length body.now)) }
    ensures short { IsErr result ↔ (length body.now < gateway_size) }
{
    if body.len() < GATEWAY_SIZE {
        return Err(TvlvErr::BadLength {
            kind: GATEWAY,
            len: body.len(),
        });
    }
    let download = BigEndian::read_u32(body);
    let upload = BigEndian::read_u32(&body[UPLOAD_OFFSET..]);
    Ok((download, upload))
}

/// The multicast flags of a node. `BadLength` where the body has fewer than 4 bytes.
pub fn read_mcast(body: &[u8]) -> Result<u8, TvlvErr>
    ensures reads { result ≡ ok_or (multicast_of_body body.now)
        (TvlvErr.BadLength multicast_tvlv (length body.now)) }
    ensures short { IsErr result ↔ (length body.now < multicast_size) }
{
    if body.len() < MULTICAST_SIZE {
        return Err(TvlvErr::BadLength {
            kind: MULTICAST,
            len: body.len(),
        });
    }
    Ok(body[0])
}
