//! What texts stand for by a small form, and which rule others break, and where.
ghost use Rattle.std.specs.Prelude.{[], ◌∷◌, Ok, Some, None, if◌then◌else◌, codes, ⊤};
ghost use Rattle.std.specs.Str.{bytes_eq};
ghost use Rattle.doc_forms.specs.Forms.{counted, element, field, flag, keyed, kind, list, number};
ghost use Rattle.doc_forms.specs.Reading.{◌>>=◌};

use super::{
    DocFail, Form, Kind, counted, element, field, flag_at, keyed, kind_at, list, name_at,
    number_at, number_of, read_document, u8_at, u16_at, u32_at, u32_of,
};
use listed::Listed;
use serde_json::Value;
use std::alloc::Global;
use std::test::Fail;

#[derive(Clone, Copy, Debug)]
enum Device {
    Lamp,
    Fan,
}

impl Kind for Device {
    ghost use Rattle.doc_forms.specs.declared.tests.Device.TheVariants.{Lamp, Fan};

    ghost of_word = { λ word. if bytes_eq word (codes "lamp") then Some Lamp else (if bytes_eq word (codes "fan") then Some Fan else None) };

    fn of_word(word: &str) -> Option<Device> {
        match word {
            "lamp" => Some(Device::Lamp),
            "fan" => Some(Device::Fan),
            _ => None,
        }
    }
}

// `[kind, number, is_on]`, with a number from 1 to 8.
struct DeviceForm;

impl Form for DeviceForm {
    type Read = (Device, u64, bool);

    ghost form = { λ value.
        kind ⟦<Device as Kind>⟧.of_word 0 value >>= λ device.
        counted 3 value >>= λ _.
        element (number 1 8) 1 value >>= λ n.
        element flag 2 value >>= λ is_on.
        Ok (device, n, is_on) };

    ghost holds = { λ read. ⊤ };

    fn read(alloc: Global, value: &Value) -> Result<(Device, u64, bool), DocFail> {
        let device = kind_at::<Device>(alloc, value, 0)?;
        counted(alloc, value, 3)?;
        let number = number_at(alloc, value, 1, 1, 8)?;
        Ok((device, number, flag_at(alloc, value, 2)?))
    }
}

// At most two devices.
struct DevicesForm;

impl Form for DevicesForm {
    type Read = Listed<(Device, u64, bool)>;

    ghost form = { list ⟦<DeviceForm as Form>⟧.form 2 };

    ghost holds = { λ read. ⊤ };

    fn read(alloc: Global, value: &Value) -> Result<Listed<(Device, u64, bool)>, DocFail> {
        list::<DeviceForm>(alloc, value, 2)
    }
}

// Devices, and how many minutes they have been so.
struct RoomForm;

impl Form for RoomForm {
    type Read = (Listed<(Device, u64, bool)>, u64);

    ghost form = { λ value.
        keyed (codes "devices" ∷ codes "minutes" ∷ []) value >>= λ _.
        field ⟦<DevicesForm as Form>⟧.form (codes "devices") value >>= λ devices.
        field (number 0 59) (codes "minutes") value >>= λ minutes.
        Ok (devices, minutes) };

    ghost holds = { λ read. ⊤ };

    fn read(alloc: Global, value: &Value) -> Result<(Listed<(Device, u64, bool)>, u64), DocFail> {
        keyed(alloc, value, &["devices", "minutes"])?;
        let devices = field::<DevicesForm>(alloc, value, "devices")?;
        Ok((devices, number_of(alloc, value, "minutes", 0, 59)?))
    }
}

// What a text is read as, or the number of the rule that it breaks and the path.
fn answer(alloc: Global, text: &str) -> Result<String, Fail> {
    match read_document::<RoomForm>(alloc, text.as_bytes()) {
        Ok((devices, minutes)) => Ok(format!(in alloc; "{:?} {minutes}", devices.as_slice())?),
        Err(DocFail::Refused { number, path }) => {
            let path = std::str::from_utf8(path.as_slice())?;
            Ok(format!(in alloc; "{number} {path}")?)
        }
        Err(DocFail::OutOfMemory) => Err(Fail::from("out of memory")),
    }
}

#[test]
fn texts(rt: HostRuntime) -> Result<(), Fail> {
    for (text, want) in [
        (r#"{"minutes":0,"devices":[]}"#, "[] 0"),
        (
            r#"{"devices":[["lamp",1,true],["fan",8,false]],"minutes":59}"#,
            "[(Lamp, 1, true), (Fan, 8, false)] 59",
        ),
        (r#"{"devices":[],"minutes":0"#, "1 /"),
        (r#"[]"#, "2 /"),
        (r#"{"devices":{},"minutes":0}"#, "2 /devices"),
        (r#"{"devices":[[]],"minutes":0}"#, "5 /devices/0"),
        (r#"{"devices":[["lamp"]],"minutes":0}"#, "5 /devices/0"),
        (r#"{"devices":[["bell"]],"minutes":0}"#, "7 /devices/0/0"),
        (
            r#"{"devices":[["fan",1,true],["fan",9,0]],"minutes":0}"#,
            "6 /devices/1/1",
        ),
        (r#"{"devices":[["fan",1,0]],"minutes":0}"#, "2 /devices/0/2"),
        (r#"{"devices":[[],[],[]],"minutes":0}"#, "9 /devices"),
        (r#"{"devices":[],"minutes":60}"#, "6 /minutes"),
        (r#"{"devices":[],"minutes":-1}"#, "2 /minutes"),
        (r#"{"devices":[],"hours":0}"#, "3 /minutes"),
        (r#"{"devices":0,"minutes":0,"hours":0}"#, "4 /hours"),
    ] {
        assert_eq!(rt; answer(rt.alloc(), text)?.as_str(), want, "at {text}");
    }
    Ok(())
}

#[test]
fn parts_of_each_width(rt: HostRuntime) -> Result<(), Fail> {
    let text = br#"[255,65535,4294967295,65536,["fan",1,true],{"minutes":4294967295}]"#;
    let list = Value::from_slice(rt.alloc(), text)?;
    assert_eq!(rt; u8_at(rt.alloc(), &list, 0)?, 255);
    assert_eq!(rt; u16_at(rt.alloc(), &list, 1)?, 65535);
    assert_eq!(rt; u32_at(rt.alloc(), &list, 2)?, 4294967295);
    assert_eq!(rt; name_at(rt.alloc(), &list, 3)?, 65535);
    assert_eq!(rt; element::<DeviceForm>(rt.alloc(), &list, 4)?.1, 1);
    let object = list.get(5usize).ok_or("no object")?;
    assert_eq!(rt;
        u32_of(rt.alloc(), object, "minutes", 0, u32::MAX)?,
        4294967295
    );
    Ok(())
}
