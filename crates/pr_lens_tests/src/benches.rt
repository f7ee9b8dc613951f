//! Test benches for modules, written out by hand.

use crate::calls::check_calls;
use std::alloc::AllocError;

/// A program with two inputs, one of them with a name that is a word, and its results on two samples.
const BENCH: &str = "\
$ pipelens testbench p s --name reg --seed 7
input x:8;
input bit:1;
output y:9 = x + x@1 + bit;
---
3 1
255 0
= 0
`timescale 1ns/1ps
/* verilator lint_off WIDTH */
module bench;
  reg clock = 0, reset = 1, in_valid = 0, out_ready = 0, failed = 0;
  wire in_ready, out_valid;
  reg [31:0] clocks = 0, offered = 0, taken = 0, valid = 70, ready = 70, given = 0;
  reg [31:0] count = 32'd2, dice = 32'd7;
  reg [7:0] s_x [0:1];
  reg [7:0] p_x = 0;
  reg [0:0] s_bit_ [0:1];
  reg [0:0] p_bit_ = 0;
  reg [8:0] w_y [0:1];
  wire [8:0] p_y;
  reg_ dut (
    .clock(clock),
    .reset(reset),
    .in_valid(in_valid),
    .in_ready(in_ready),
    .out_valid(out_valid),
    .out_ready(out_ready),
    .x(p_x),
    .bit_(p_bit_),
    .y(p_y));
  initial begin
    given = $value$plusargs(\"seed=%d\", dice);
    given = $value$plusargs(\"valid=%d\", valid);
    given = $value$plusargs(\"ready=%d\", ready);
    s_x[0] = 8'd3; s_bit_[0] = 1'd1; w_y[0] = 9'd4;
    s_x[1] = 8'd255; s_bit_[1] = 1'd0; w_y[1] = 9'd258;
  end
  always #5 clock = ~clock;
  // Inputs change between two rising edges.
  always @(negedge clock) begin
    clocks = clocks + 1;
    if (clocks == 3) reset = 0;
    if (clocks > 3) begin
      dice = dice * 32'd1664525 + 32'd1013904223;
      in_valid = offered < count && (dice >> 16) % 100 < valid;
      dice = dice * 32'd1664525 + 32'd1013904223;
      out_ready = (dice >> 16) % 100 < ready;
    end
    p_x = in_valid ? s_x[offered] : {8{1'b1}};
    p_bit_ = in_valid ? s_bit_[offered] : {1{1'b1}};
  end
  // At a rising edge, a result is taken as it stands before it.
  always @(posedge clock) if (!reset && !failed) begin
    if (out_valid && out_ready) begin
      if (p_y !== w_y[taken]) begin
        $display(\"result %0d: y is %0d, and is to be %0d\", taken + 1, p_y, w_y[taken]);
        failed = 1;
      end
      taken = taken + 1;
    end
    if (in_valid && in_ready) offered = offered + 1;
    if (failed) $finish;
    else if (taken == count) begin
      $display(\"%0d results, all as expected\", taken);
      $finish;
    end else if (clocks > 200 * count + 200000) begin
      $display(\"only %0d of %0d results came\", taken, count);
      $finish;
    end
  end
endmodule
";

#[test]
fn bench(rt: HostRuntime) -> Result<(), AllocError> {
    check_calls(&rt, rt.alloc(), "", BENCH)
}

/// Calls without a bench.
const NONE: &str = "\
$ pipelens testbench p
input x:8;
output y = x;
= 2
...
$ pipelens testbench p s --seed 4294967296
input x:8;
output y = x;
---
1
= 2
...
$ pipelens testbench p s
input x:8;
output y = x;
---
1
256
= 7
! bad sample: line 2
$ pipelens testbench p s --name 1st
input x:8;
output y = x;
---
1
= 2
...
";

#[test]
fn no_bench(rt: HostRuntime) -> Result<(), AllocError> {
    check_calls(&rt, rt.alloc(), "", NONE)
}
