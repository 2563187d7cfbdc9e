// The readers of the wire.
ghost use Rattle.std.specs.Prelude.{◌≡◌};
ghost use Rattle.layout.specs.Layouts.{layout_body};
ghost use Rattle.layout4.specs.Layout4s.{layout4};
ghost use Rattle.device.specs.Bodies.{device_body};
ghost use Rattle.binding.specs.Bindings.{bound_to};
ghost use Rattle.report.specs.Reports.{error_at, report_body, statistics_body};
ghost use Rattle.abi_wire.specs.LayoutResults.{layout4_result, layout_result};
ghost use Rattle.abi_wire.specs.DeviceResults.{device_result};
ghost use Rattle.abi_wire.specs.BindResults.{bind_result};
ghost use Rattle.abi_wire.specs.ReportResults.{arrays_in, error_result, reports_result};
ghost use Rattle.abi_wire.specs.StatisticsResults.{statistic_array_in, statistics_result};

use abi_wire::{
    BindResult, DeviceResult, ErrorResult, Layout4Result, LayoutResult, ReportsResult,
    StatisticsResult,
};
use base::{DEVICE_ID_SIZE, MirrorNumber, StripeNumber};
use xdr::Cursor;

pub fn basilothyn_read_layout(body: &[u8]) -> LayoutResult
    ensures { result ≡ layout_result (layout_body body.now) }
{
    abi_wire::layout_result(layout::read_layout(body))
}

pub fn basilothyn_read_layout4(bytes: &[u8]) -> Layout4Result
    ensures { result ≡ layout4_result (layout4 bytes.now) }
{
    abi_wire::layout4_result(layout4::read_layout4(bytes))
}

pub fn basilothyn_read_device(body: &[u8]) -> DeviceResult
    ensures { result ≡ device_result (device_body body.now) }
{
    abi_wire::device_result(device::read_device(body))
}

// The device body was fetched under the device id; the supported versions are the bits 1, 2, 4, 8 for 3, 4.0, 4.1,
// 4.2.
pub fn basilothyn_bind(
    layout: &[u8],
    mirror: u32,
    stripe: u32,
    device: &[u8],
    id: &[u8; DEVICE_ID_SIZE],
    supported: u32,
) -> BindResult
    ensures { result ≡ bind_result (bound_to layout.now mirror stripe device.now
        id.now supported) }
{
    let m = MirrorNumber(mirror);
    let s = StripeNumber(stripe);
    abi_wire::bind_result(binding::bind(layout, m, s, device, id, supported))
}

pub fn basilothyn_read_reports(body: &[u8]) -> ReportsResult
    ensures { result ≡ reports_result (arrays_in (report_body body.now)) }
{
    abi_wire::reports_result(report::read_reports(body))
}

pub fn basilothyn_read_statistics(body: &[u8]) -> StatisticsResult
    ensures { result ≡ statistics_result (statistic_array_in (statistics_body body.now)) }
{
    abi_wire::statistics_result(report::read_statistics(body))
}

// The error that is at an offset of a body.
pub fn basilothyn_read_error(body: &[u8], at: usize) -> ErrorResult
    ensures { result ≡ error_result (error_at body.now at) }
{
    abi_wire::error_result(report::read_error(body, Cursor { at }))
}
